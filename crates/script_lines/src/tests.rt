// Each function once with ample memory, and lines outside the grammar.
use crate::{first_bad, is_line, put_closed, put_sent, read_line};
use first_mqtt_packet::{Packet, Props};
use std::test::Fail;

#[test]
fn lines_are_read_as_the_grammar_says(rt: HostRuntime) -> Result<(), Fail> {
    let alloc = rt.alloc();
    for (text, answer) in [
        ("", "Some(Nothing)"),
        ("# open 1", "Some(Nothing)"),
        ("open 65535", "Some(Open(65535))"),
        ("send 1 C000", "Some(Send(1, [192, 0]))"),
        ("send 1 c0", "Some(Send(1, [192]))"),
        ("pump 0", "Some(Pump(0))"),
        ("open 01", "None"),
        ("open  1", "None"),
        ("open 65536", "None"),
        ("send 1 C", "None"),
        ("send 1 CG", "None"),
        ("send 1", "None"),
        ("send 1 C0 00", "None"),
        ("quit", "None"),
    ] {
        let line = read_line(alloc, text.as_bytes())?;
        let shown = format!(in alloc; "{line:?}")?;
        assert_eq!(rt; shown.as_str(), answer, "at {text}");
        assert_eq!(rt; is_line(text.as_bytes()), answer != "None", "at {text}");
    }
    Ok(())
}

#[test]
fn lines_are_counted_from_1(rt: HostRuntime) -> Result<(), Fail> {
    assert_eq!(rt; first_bad(b"open 1\npump\n"), Some(2));
    assert_eq!(rt; first_bad(b"open 1\npump 1\n"), None);
    Ok(())
}

#[test]
fn a_close_is_a_line(rt: HostRuntime) -> Result<(), Fail> {
    let mut out = Vec::new(rt.alloc());
    put_closed(rt.alloc(), 7, &mut out)?;
    assert_eq!(rt; out.as_slice(), b"7 closed\n".as_slice());
    Ok(())
}

#[test]
fn a_packet_is_a_line_of_digits(rt: HostRuntime) -> Result<(), Fail> {
    let alloc = rt.alloc();
    let packet = Packet::Puback {
        id: 7,
        reason: 0,
        props: Props::new(alloc),
    };
    let mut out = Vec::new(alloc);
    put_sent(alloc, 2, &packet, &mut out)?;
    assert_eq!(rt; out.as_slice(), b"2< 40020007\n".as_slice());
    Ok(())
}
