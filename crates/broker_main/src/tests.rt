// Calls of the program on a source and a sink in memory.
use crate::offline::run_offline;
use crate::program::run_program;
use outside::{VecSink, VecSource};
use std::alloc::{AllocError, Global};
use std::process::ExitCode;
use std::test::Fail;

// A client connects, with Session Expiry Interval 3600, and what it is answered.
const CONNECTS: &[u8] = b"open 1\nsend 1 101300044D5154540500003C051100000E10000161\n";

const CONNACK: &[u8] = b"1< 200F00000C210020250027001000002A00\n";

// One client subscribes to a/b, and another one publishes hi there.
const FIRST_PUBLISH: &[u8] = b"open 1
send 1 101300044D5154540500003C051100000E10000161
send 1 82090001000003612F6201
open 2
send 2 101300044D5154540500003C051100000E10000170
send 2 320A0003612F620007006869
pump 1
pump 1
";

const FIRST_PUBLISH_TEXT: &[u8] = b"1< 200F00000C210020250027001000002A00
1< 900400010001
2< 200F00000C210020250027001000002A00
2< 40020007
1< 320A0003612F620001006869
";

// The words of a text, apart.
fn words_of(alloc: Global, text: &str) -> Result<Vec<String>, AllocError> {
    let mut words = Vec::new(alloc);
    for word in text.split_whitespace() {
        words.push(String::from_str(alloc, word)?)?;
    }
    Ok(words)
}

// What a call ends with and what it puts. The calls of the source and of the sink with these numbers, from 1, fail.
fn run(
    alloc: Global,
    words: &str,
    script: &[u8],
    failing_takes: &[u64],
    failing_puts: &[u64],
) -> Result<(u8, Vec<u8>), AllocError> {
    let words = words_of(alloc, words)?;
    let mut source = VecSource::new(script.to_vec(alloc)?, failing_takes.to_vec(alloc)?);
    let mut sink = VecSink::new(alloc, failing_puts.to_vec(alloc)?);
    let status = run_offline(alloc, &words, &mut source, &mut sink);
    let text = sink.bytes().to_vec(alloc)?;
    Ok((status, text))
}

#[test]
fn connects(rt: HostRuntime) -> Result<(), Fail> {
    let (status, text) = run(rt.alloc(), "replay", CONNECTS, &[], &[])?;
    assert_eq!(rt; status, 0);
    assert_eq!(rt; text.as_slice(), CONNACK);
    Ok(())
}

#[test]
fn first_publish(rt: HostRuntime) -> Result<(), Fail> {
    let (status, text) = run(rt.alloc(), "replay", FIRST_PUBLISH, &[], &[])?;
    assert_eq!(rt; status, 0);
    assert_eq!(rt; text.as_slice(), FIRST_PUBLISH_TEXT);
    Ok(())
}

#[test]
fn ping_before_connect(rt: HostRuntime) -> Result<(), Fail> {
    let (status, text) = run(rt.alloc(), "replay", b"open 1\nsend 1 C000\n", &[], &[])?;
    assert_eq!(rt; status, 0);
    assert_eq!(rt; text.as_slice(), b"1 closed\n".as_slice());
    Ok(())
}

#[test]
fn empty_script(rt: HostRuntime) -> Result<(), Fail> {
    let (status, text) = run(rt.alloc(), "replay", b"", &[], &[])?;
    assert_eq!(rt; status, 0);
    assert_eq!(rt; text.as_slice(), b"".as_slice());
    Ok(())
}

#[test]
fn later_packet_closes(rt: HostRuntime) -> Result<(), Fail> {
    let script = b"open 1\nsend 1 101300044D5154540500003C051100000E10000161\nsend 1 C000\n";
    let (status, text) = run(rt.alloc(), "replay", script, &[], &[])?;
    assert_eq!(rt; status, 0);
    assert_eq!(rt;
        text.as_slice(),
        b"1< 200F00000C210020250027001000002A00\n1< E00183\n1 closed\n".as_slice()
    );
    Ok(())
}

#[test]
fn a_line_outside_the_grammar_is_told_by_its_number(rt: HostRuntime) -> Result<(), Fail> {
    let (status, text) = run(rt.alloc(), "replay", b"open", &[], &[])?;
    assert_eq!(rt; status, 2);
    assert_eq!(rt; text.as_slice(), b"line 1: not a script line\n".as_slice());
    Ok(())
}

#[test]
fn other_words_put_the_usage(rt: HostRuntime) -> Result<(), Fail> {
    for words in ["", "load 1 1", "replay x", "inspect d 1 1", "Replay"] {
        let (status, text) = run(rt.alloc(), words, b"", &[], &[])?;
        assert_eq!(rt; status, 2, "at {words}");
        assert_eq!(rt;
            text.as_slice(),
            b"usage: replay | load SEED COUNT | inspect DIR S W\n".as_slice()
        );
    }
    Ok(())
}

#[test]
fn a_source_that_fails_before_its_end_puts_nothing(rt: HostRuntime) -> Result<(), Fail> {
    let (status, text) = run(rt.alloc(), "replay", b"# a comment", &[2], &[])?;
    assert_eq!(rt; status, 3);
    assert_eq!(rt; text.as_slice(), b"".as_slice());
    Ok(())
}

// The first take gives the whole script and the second one nothing, so a third would fail.
#[test]
fn a_script_is_read_to_its_end_and_no_further(rt: HostRuntime) -> Result<(), Fail> {
    let (status, text) = run(rt.alloc(), "replay", CONNECTS, &[3], &[])?;
    assert_eq!(rt; status, 0);
    assert_eq!(rt; text.as_slice(), CONNACK);
    Ok(())
}

#[test]
fn a_put_that_fails_leaves_the_front(rt: HostRuntime) -> Result<(), Fail> {
    let (status, text) = run(rt.alloc(), "replay", FIRST_PUBLISH, &[], &[2])?;
    assert_eq!(rt; status, 4);
    assert_eq!(rt; text.as_slice(), CONNACK);
    Ok(())
}

#[test]
fn a_put_that_fails_is_told(rt: HostRuntime) -> Result<(), Fail> {
    let (status, text) = run(rt.alloc(), "replay", b"pump", &[], &[1])?;
    assert_eq!(rt; status, 4);
    assert_eq!(rt; text.as_slice(), b"".as_slice());
    Ok(())
}

#[test]
fn the_program_ends_with_the_status_of_its_call(rt: HostRuntime) -> Result<(), Fail> {
    let alloc = rt.alloc();
    let usage = b"usage: replay | load SEED COUNT | inspect DIR S W\n".as_slice();
    let bad_line = b"line 2: not a script line\n".as_slice();
    for (words, script, status, text) in [
        ("replay", CONNECTS, 0, CONNACK),
        ("replay", b"open 1\npong 1".as_slice(), 2, bad_line),
        ("play", CONNECTS, 2, usage),
    ] {
        let words = words_of(alloc, words);
        let (code, _, sink) = run_program(alloc, words, script, Vec::new(alloc));
        assert_eq!(rt; code, ExitCode::from(status));
        assert_eq!(rt; sink.into_inner().as_slice(), text);
    }
    Ok(())
}

#[test]
fn words_that_are_refused_memory_end_the_program_with_5(rt: HostRuntime) -> Result<(), Fail> {
    let alloc = rt.alloc();
    let words: Result<Vec<String>, AllocError> = Err(AllocError);
    let (code, _, sink) = run_program(alloc, words, CONNECTS, Vec::new(alloc));
    assert_eq!(rt; code, ExitCode::from(5));
    assert_eq!(rt; sink.into_inner().as_slice(), b"".as_slice());
    Ok(())
}
