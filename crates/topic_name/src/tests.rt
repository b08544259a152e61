// Calls that take memory, with ample memory.
use crate::{Blob, Body, Filter, Message, Name, Topic};
use bytes::Bytes;
use std::collections::HashMap;
use std::test::Fail;

#[test]
fn a_name_is_copied(rt: HostRuntime) -> Result<(), Fail> {
    let name = Name::of(rt.alloc(), "sensor")?;
    let copy = name.copy()?;
    assert_eq!(rt; copy.text(), "sensor");
    Ok(())
}

#[test]
fn a_body_is_copied(rt: HostRuntime) -> Result<(), Fail> {
    let blob = Blob::of(rt.alloc(), b"21.5")?;
    let copy = blob.copy()?;
    assert_eq!(rt; copy.bytes(), b"21.5".as_slice());
    Ok(())
}

#[test]
fn a_name_is_a_key(rt: HostRuntime) -> Result<(), Fail> {
    let mut sessions = HashMap::new(rt.alloc());
    sessions.insert(Name::of(rt.alloc(), "sensor")?, 7)?;
    let sensor = Name::of(rt.alloc(), "sensor")?;
    assert_eq!(rt; sessions.get(&sensor).copied(), Some(7));
    Ok(())
}

#[test]
fn a_topic_is_read_and_copied(rt: HostRuntime) -> Result<(), Fail> {
    let topic = Topic::read(rt.alloc(), "room/heat")?;
    let copy = topic.copy()?;
    assert_eq!(rt; copy.text(), "room/heat");
    Ok(())
}

#[test]
fn a_filter_is_read_and_copied(rt: HostRuntime) -> Result<(), Fail> {
    let filter = Filter::read(rt.alloc(), "room/+")?;
    let copy = filter.copy()?;
    assert_eq!(rt; copy.text(), "room/+");
    Ok(())
}

#[test]
fn a_message_is_copied(rt: HostRuntime) -> Result<(), Fail> {
    let alloc = rt.alloc();
    let message = Message {
        offset: 5,
        publisher: Name::of(alloc, "sensor")?,
        incarnation: 1,
        id: 0,
        qos: 1,
        stamp: 0,
        expiry: None,
        topic: Topic::read(alloc, "room/heat")?,
        props: Blob::empty(),
        body: Body::Here(Bytes::copy_from_slice(alloc, b"21.5")?),
    };
    let copy = message.copy()?;
    assert_eq!(rt; copy.payload_len(), 4);
    Ok(())
}
