// The packets of the MQTT standard's forms, laid out by hand.
use crate::{Packet, Prop, Props, ReadRefused, read, write};
use std::alloc::{AllocError, Global};
use std::test::Fail;
use topic_name::Blob;

const CONNECT: [u8; 21] = [
    0x10, 0x13, 0x00, 0x04, 0x4D, 0x51, 0x54, 0x54, 0x05, 0x00, 0x00, 0x3C, 0x05, 0x11, 0x00, 0x00,
    0x0E, 0x10, 0x00, 0x01, 0x61,
];

const SUBSCRIBE: [u8; 11] = [
    0x82, 0x09, 0x00, 0x01, 0x00, 0x00, 0x03, 0x61, 0x2F, 0x62, 0x01,
];

const PUBLISH: [u8; 12] = [
    0x32, 0x0A, 0x00, 0x03, 0x61, 0x2F, 0x62, 0x00, 0x07, 0x00, 0x68, 0x69,
];

fn written(alloc: Global, packet: &Packet) -> Result<Vec<u8>, AllocError> {
    let mut out = Vec::new(alloc);
    write(alloc, packet, &mut out)?;
    Ok(out)
}

#[test]
fn each_form_is_read_and_written_again(rt: HostRuntime) -> Result<(), Fail> {
    let alloc = rt.alloc();
    for bytes in [CONNECT.as_slice(), SUBSCRIBE.as_slice(), PUBLISH.as_slice()] {
        let packet = read(alloc, bytes).ok().ok_or("the bytes are a packet")?;
        assert_eq!(rt; written(alloc, &packet)?.as_slice(), bytes);
    }
    Ok(())
}

#[test]
fn a_publish_is_read_field_by_field(rt: HostRuntime) -> Result<(), Fail> {
    let packet = read(rt.alloc(), &PUBLISH)
        .ok()
        .ok_or("the bytes are a packet")?;
    let Packet::Publish {
        topic,
        id,
        payload,
        ..
    } = packet
    else {
        return Err(Fail::from("not a PUBLISH"));
    };
    assert_eq!(rt; topic.text(), "a/b");
    assert_eq!(rt; id, 7);
    assert_eq!(rt; payload.bytes(), b"hi".as_slice());
    Ok(())
}

#[test]
fn other_packets_come_later(rt: HostRuntime) {
    let alloc = rt.alloc();
    let mut no_identifier = PUBLISH;
    no_identifier[8] = 0;
    assert!(rt; matches!(read(alloc, &no_identifier), Err(ReadRefused::Later)));
    assert!(rt; matches!(read(alloc, &[0xC0, 0x00]), Err(ReadRefused::Later)));
}

#[test]
fn answers_are_written_as_the_standard_lays_them_out(rt: HostRuntime) -> Result<(), Fail> {
    let alloc = rt.alloc();
    let mut props = Props::new(alloc);
    props.push(Prop::Two(0x21, 32))?;
    props.push(Prop::Byte(0x25, 0))?;
    props.push(Prop::Four(0x27, 0x0010_0000))?;
    props.push(Prop::Byte(0x2A, 0))?;
    let connack = Packet::Connack {
        present: false,
        reason: 0,
        props,
    };
    let suback = Packet::Suback {
        id: 1,
        props: Props::new(alloc),
        reasons: Blob::of(alloc, &[1])?,
    };
    let puback = Packet::Puback {
        id: 7,
        reason: 0,
        props: Props::new(alloc),
    };
    let disconnect = Packet::Disconnect {
        reason: 0x83,
        props: Props::new(alloc),
    };
    assert_eq!(rt;
        written(alloc, &connack)?.as_slice(),
        [
            0x20, 0x0F, 0x00, 0x00, 0x0C, 0x21, 0x00, 0x20, 0x25, 0x00, 0x27, 0x00, 0x10, 0x00,
            0x00, 0x2A, 0x00,
        ]
        .as_slice()
    );
    assert_eq!(rt;
        written(alloc, &suback)?.as_slice(),
        [0x90, 0x04, 0x00, 0x01, 0x00, 0x01].as_slice()
    );
    assert_eq!(rt;
        written(alloc, &puback)?.as_slice(),
        [0x40, 0x02, 0x00, 0x07].as_slice()
    );
    assert_eq!(rt;
        written(alloc, &disconnect)?.as_slice(),
        [0xE0, 0x01, 0x83].as_slice()
    );
    Ok(())
}
