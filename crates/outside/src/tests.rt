// Sources and sinks at their types, and through their bounds.
ghost use Rattle.std.specs.Prelude.{◌≡◌, ◌<◌, ◌++◌, IsTrue, IfSome, OnOk, OnErr};
ghost use Rattle.outside.specs.Cause.{HasCause};
ghost use Rattle.outside.specs.DiskModel.{LeavesOnly, Only, Runs, Torn};
ghost use Rattle.outside.specs.Sink.{Puts, PutsFront};

use crate::{Clock, Disk, Failed, Input, Output, Sink, Source, StepClock, VecSink, VecSource};
use std::alloc::Global;
use std::io::{self, Write};
use std::test::Fail;

// Reads to the end, by pieces of three bytes. `None` where memory is refused, the source fails or there is no end.
fn read_all<S: Source>(alloc: Global, source: &mut S) -> Option<Vec<u8>>
    ensures { IfSome result (λ bytes. IfSome (S.left source.old) (λ all. bytes.items ≡ all)) }
{
    let mut bytes = Vec::new(alloc);
    let mut piece = [0; 3];
    for _turn in 0..u64::MAX {
        let count = source.take(&mut piece).ok()?;
        if count == 0 {
            return Some(bytes);
        }
        bytes.extend_from_slice(&piece[..count]).ok()?;
    }
    None
}

// Reads a source in memory to its end.
fn read_memory(alloc: Global, bytes: Vec<u8>) -> Option<Vec<u8>>
    ensures { IfSome result (λ all. all.items ≡ bytes.items) }
{
    let mut source = VecSource::new(bytes, Vec::new(alloc));
    read_all(alloc, &mut source)
}

// Puts two pieces.
#[tactic(auto, using(crate::specs::Sink::puts_front_first, crate::specs::Sink::puts_front_then))]
fn put_both<S: Sink>(sink: &mut S, first: &[u8], second: &[u8]) -> Result<(), Failed>
    ensures ok { OnOk result
        (Puts (S.taken sink.old) (S.taken sink.new) (first.now ++ second.now)) }
    ensures err { OnErr result
        (PutsFront (S.taken sink.old) (S.taken sink.new) (first.now ++ second.now)) }
    ensures cause { HasCause (S.faults sink.old) (S.faults sink.new) result }
{
    sink.put(first)?;
    sink.put(second)
}

#[test]
fn a_source_in_memory_gives_all_its_bytes(rt: HostRuntime) -> Result<(), Fail> {
    let alloc = rt.alloc();
    let bytes = read_memory(alloc, b"seven b".to_vec(alloc)?).expect(&rt, "all bytes");
    assert_eq!(rt; bytes.as_slice(), b"seven b".as_slice());
    Ok(())
}

#[test]
fn a_source_in_memory_fails_at_its_second_call(rt: HostRuntime) -> Result<(), Fail> {
    let alloc = rt.alloc();
    let mut source = VecSource::new(b"abcd".to_vec(alloc)?, [2].to_vec(alloc)?);
    let mut into = [0; 2];
    assert_eq!(rt; source.take(&mut into), Ok(2));
    assert_eq!(rt; source.take(&mut into), Err(Failed));
    assert_eq!(rt; source.take(&mut into), Ok(2));
    assert_eq!(rt; into, *b"cd");
    assert_eq!(rt; source.take(&mut into), Ok(0));
    Ok(())
}

#[test]
fn a_sink_in_memory_keeps_all_but_the_piece_that_failed(rt: HostRuntime) -> Result<(), Fail> {
    let alloc = rt.alloc();
    let mut sink = VecSink::new(alloc, [3].to_vec(alloc)?);
    put_both(&mut sink, b"ab", b"c")?;
    assert_eq!(rt; sink.put(b"lost"), Err(Failed));
    sink.put(b"d")?;
    assert_eq!(rt; sink.bytes(), b"abcd".as_slice());
    Ok(())
}

#[test]
fn a_reader_is_a_source(rt: HostRuntime) -> Result<(), Fail> {
    let alloc = rt.alloc();
    let mut source = Input::new(b"read".as_slice());
    let bytes = read_all(alloc, &mut source).expect(&rt, "all bytes");
    assert_eq!(rt; bytes.as_slice(), b"read".as_slice());
    Ok(())
}

#[test]
fn a_writer_is_a_sink(rt: HostRuntime) -> Result<(), Fail> {
    let alloc = rt.alloc();
    let mut sink = Output::new(Vec::new(alloc));
    put_both(&mut sink, b"wri", b"tten")?;
    assert_eq!(rt; sink.into_inner().as_slice(), b"written".as_slice());
    Ok(())
}

// Writes one byte and syncs it: at any moment a crash leaves the bytes as they were but for that one.
fn write_synced<D: Disk>(disk: &mut D, at: u64, byte: u8) -> Result<(), Failed>
    requires within { at < (D.state disk.old).size }
    requires durable { Only (D.state disk.old).seen (D.state disk.old).may_leave }
    ensures durable { OnOk result (Only (D.state disk.new).seen (D.state disk.new).may_leave) }
    ensures any_moment { LeavesOnly (D.state disk.old) (D.state disk.new)
        (Torn at 1 (D.state disk.old).seen) }
    ensures run { Runs 2 2 (D.state disk.old) (D.state disk.new) result }
    ensures cause { HasCause (D.state disk.old).faults (D.state disk.new).faults result }
{
    disk.write_at(at, &[byte])?;
    disk.sync()?;
    Ok(())
}

// A writer that takes all and whose flush fails.
#[derive(Drop)]
struct NeverFlushed;

impl Write for NeverFlushed {
    fn write(&mut self, bytes: &[u8]) -> io::Result<usize> {
        Ok(bytes.len())
    }

    fn flush(&mut self) -> io::Result<()> {
        Err(io::Error::from(io::ErrorKind::Other))
    }
}

#[test]
fn a_flush_that_fails_is_a_fault(rt: HostRuntime) -> Result<(), Fail> {
    let mut sink = Output::new(NeverFlushed);
    assert_eq!(rt; sink.put(b"put"), Err(Failed));
    Ok(())
}

#[test]
fn a_step_clock_tells_what_it_is_moved_to(rt: HostRuntime) -> Result<(), Fail> {
    let mut clock = StepClock::at(5);
    assert_eq!(rt; clock.now_ms(), 5);
    clock.advance(7);
    assert_eq!(rt; clock.now_ms(), 12);
    clock.advance(u64::MAX);
    assert_eq!(rt; clock.now_ms(), u64::MAX);
    Ok(())
}
