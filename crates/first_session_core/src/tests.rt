// One client that subscribes to `a/b`, and what it gets of one stored message.
ghost use Rattle.std.specs.Prelude.{◌≡◌, IfOk};

use crate::{Connection, Issued, Session, pump, refusal};
use first_mqtt_packet::{Packet, Prop, Props, Wishes, write};
use first_session_terms::{Entry, Kind};
use first_topic_name::{Filter, Message, Topic};
use std::alloc::{AllocError, Global};
use std::test::Fail;
use topic_name::{Blob, Name};

// The PUBLISH of `hi` to `a/b` at QoS 1 with the identifier 1, laid out by hand.
const PUBLISH: [u8; 12] = [
    0x32, 0x0A, 0x00, 0x03, 0x61, 0x2F, 0x62, 0x00, 0x01, 0x00, 0x68, 0x69,
];

fn subscribed(alloc: Global, options: u8) -> Result<Session, AllocError> {
    let client = Name::of(alloc, "reader")?;
    let wish = Name::of(alloc, "a/b")?;
    let mut session = Session::begun(alloc, client, 1, 0);
    session.subscribe(Filter::of(wish), options, 0);
    Ok(session)
}

// A message of QoS 1 at offset 0.
fn stored(alloc: Global, publisher: &str, topic: &str) -> Result<Message, AllocError>
    ensures { IfOk result (λ m. m.offset ≡ 0) }
{
    let publisher = Name::of(alloc, publisher)?;
    let topic = Name::of(alloc, topic)?;
    let body = Blob::of(alloc, b"hi")?;
    Ok(Message::published(0, publisher, 1, 1, 0, Topic::of(topic), Blob::empty(), body))
}

// What a new connection of the session is issued of this message.
fn pumped(
    alloc: Global,
    session: &Session,
    publisher: &str,
    topic: &str,
) -> Result<Option<Issued>, AllocError> {
    let client = session.client().copy()?;
    let message = stored(alloc, publisher, topic)?;
    let connection = Connection::bound(1, client, 60, &Props::new(alloc), 0);
    pump(alloc, session, &connection, &[message])
}

fn written(alloc: Global, packets: &[Packet]) -> Result<Vec<u8>, AllocError> {
    let mut out = Vec::new(alloc);
    for packet in packets {
        write(alloc, packet, &mut out)?;
    }
    Ok(out)
}

#[test]
fn a_wanted_message_is_issued_as_its_publish(rt: HostRuntime) -> Result<(), Fail> {
    let alloc = rt.alloc();
    let session = subscribed(alloc, 1)?;
    let issued = pumped(alloc, &session, "writer", "a/b")?.ok_or("nothing is issued")?;
    let bytes = written(alloc, &issued.packets)?;
    assert_eq!(rt; bytes.as_slice(), PUBLISH.as_slice());
    Ok(())
}

#[test]
fn what_was_issued_is_not_issued_again(rt: HostRuntime) -> Result<(), Fail> {
    let alloc = rt.alloc();
    let mut session = subscribed(alloc, 1)?;
    let issued = pumped(alloc, &session, "writer", "a/b")?.ok_or("nothing is issued")?;
    session.issue(&issued.entries, issued.base, issued.target, issued.position)?;
    assert!(rt; pumped(alloc, &session, "writer", "a/b")?.is_none());
    Ok(())
}

#[test]
fn a_message_of_another_topic_is_not_issued(rt: HostRuntime) -> Result<(), Fail> {
    let session = subscribed(rt.alloc(), 1)?;
    assert!(rt; pumped(rt.alloc(), &session, "writer", "a/c")?.is_none());
    Ok(())
}

// No Local is bit 2 of the options (MQTT 3.8.3.1).
#[test]
fn an_own_message_is_not_sent_under_no_local(rt: HostRuntime) -> Result<(), Fail> {
    let session = subscribed(rt.alloc(), 5)?;
    let issued = pumped(rt.alloc(), &session, "reader", "a/b")?.ok_or("nothing is issued")?;
    assert_eq!(rt; issued.entries.len(), 1);
    assert_eq!(rt; issued.packets.len(), 0);
    Ok(())
}

#[test]
fn a_second_connect_and_a_second_subscribe_are_refused(rt: HostRuntime) -> Result<(), Fail> {
    let alloc = rt.alloc();
    let session = subscribed(alloc, 1)?;
    let connect = Packet::Connect {
        clean: false,
        keep_alive: 60,
        props: Props::new(alloc),
        client: Name::of(alloc, "reader")?,
        will: None,
        user: None,
        password: None,
    };
    let subscribe = Packet::Subscribe {
        id: 1,
        props: Props::new(alloc),
        filters: Wishes::new(alloc),
    };
    assert_eq!(rt; refusal(&session, &connect), Some(0x82));
    assert_eq!(rt; refusal(&session, &subscribe), Some(0x83));
    Ok(())
}

// Receive Maximum is property 0x21 (MQTT 3.1.2.11.3).
#[test]
fn receive_maximum_is_the_quota_and_is_spent(rt: HostRuntime) -> Result<(), Fail> {
    let mut props = Props::new(rt.alloc());
    props.push(Prop::Two(0x21, 1))?;
    let client = Name::of(rt.alloc(), "reader")?;
    let mut connection = Connection::bound(1, client, 60, &props, 0);
    assert_eq!(rt; connection.quota(), 1);
    connection.spend(&[Entry {
        subscription: 1,
        version: 1,
        shard: 0,
        offset: 0,
        kind: Kind::Track1(1),
    }]);
    assert_eq!(rt; connection.quota(), 0);
    Ok(())
}
