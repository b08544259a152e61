// The whole program, from its reader and its writer to the status that it ends with.
ghost use Rattle.std.specs.Prelude.{◌≡◌, ◌≢◌, ◌⊎◌, [], Some, IfSome};
ghost use Rattle.std.specs.Process.{exit_status};
ghost use Rattle.outside.specs.Cause.{Rose};
ghost use Rattle.packet_lines.specs.Outcome.{EndsCall};

use crate::answer::put_all;
use crate::reading::{ReadStopped, read_all};
use outside::{Input, Output, Sink, Source};
use std::alloc::Global;
use std::io::{Read, Write};
use std::process::ExitCode;

// The number that a call ends with.
const DONE: u8 = 0;

const SOURCE_FAILED: u8 = 3;

const SINK_FAILED: u8 = 4;

const NO_MEMORY: u8 = 5;

/// Runs the program: reads all lines, and writes what each prints. It ends with the number that `run_lines` answers;
/// what was read from and written into is handed back.
pub fn run_program<R: Read, W: Write>(
    alloc: Global,
    reader: R,
    writer: W,
) -> (ExitCode, Input<R>, Output<W>)
    ensures ends { EndsCall (R.remaining reader) (exit_status result.0)
        (W.contents writer) (⟦<Output<W> as Sink>⟧.taken result.2) }
    ensures source { exit_status result.0 ≡ 3 → Rose 0 (⟦<Input<R> as Source>⟧.faults result.1) }
    ensures sink { exit_status result.0 ≡ 4 → Rose 0 (⟦<Output<W> as Sink>⟧.faults result.2) }
    ensures read { exit_status result.0 ≡ 0
        → IfSome (R.remaining reader) (λ _. ⟦<Input<R> as Source>⟧.left result.1 ≡ Some []) }
    ensures unfailed { exit_status result.0 ≢ 3 → ⟦<Input<R> as Source>⟧.faults result.1 ≡ 0 }
    ensures kept { exit_status result.0 ≢ 4 → ⟦<Output<W> as Sink>⟧.faults result.2 ≡ 0 }
{
    let mut source = Input::new(reader);
    let mut sink = Output::new(writer);
    let status = run_lines(alloc, &mut source, &mut sink);
    (ExitCode::from(status), source, sink)
}

/// Reads the lines of a source, and puts what each prints, in order, once all are read. Ends with 0 where all was put;
/// 3 where the source failed; 4 where the sink failed; 5 where there was no memory.
pub fn run_lines<S: Source, K: Sink>(alloc: Global, source: &mut S, sink: &mut K) -> u8
    ensures ends { EndsCall (S.left source.old) result (K.taken sink.old) (K.taken sink.new) }
    ensures read { result ≡ 0 → IfSome (S.left source.old) (λ _. S.left source.new ≡ Some []) }
    ensures source { result ≡ 3 → Rose (S.faults source.old) (S.faults source.new) }
    ensures sink { result ≡ 4 → Rose (K.faults sink.old) (K.faults sink.new) }
    ensures unfailed { result ≢ 3 → S.faults source.new ≡ S.faults source.old }
    ensures kept { result ≢ 4 → K.faults sink.new ≡ K.faults sink.old }
{
    match read_all(alloc, source) {
        Ok(input) => put_lines(alloc, &input, sink),
        Err(ReadStopped::Source) => SOURCE_FAILED,
        Err(ReadStopped::Memory) => NO_MEMORY,
    }
}

// Puts what the lines of an input print.
fn put_lines<K: Sink>(alloc: Global, input: &[u8], sink: &mut K) -> u8
    ensures ends { EndsCall (Some input.now) result (K.taken sink.old) (K.taken sink.new) }
    ensures put { result ≢ 3 }
    ensures sink { result ≡ 4 → Rose (K.faults sink.old) (K.faults sink.new) }
    ensures kept { result ≢ 4 → K.faults sink.new ≡ K.faults sink.old }
{
    let mut text = Vec::new(alloc);
    if put_all(alloc, input, &mut text).is_err() {
        return NO_MEMORY;
    }
    match sink.put(&text) {
        Ok(()) => DONE,
        Err(_) => SINK_FAILED,
    }
}
