// The whole program, from its words, its reader and its writer to the status that it ends with.
ghost use Rattle.std.specs.Prelude.{◌≡◌, [], map, IfOk, OnErr, string_bytes};
ghost use Rattle.std.specs.Process.{exit_status};
ghost use Rattle.outside.specs.Cause.{Rose};
ghost use Rattle.broker_main.specs.Outcome.{EndsCall};
ghost use Rattle.broker_main.specs.Takes.{EndsAtOnce};

use crate::offline::{NO_MEMORY, run_offline};
use outside::{Input, Output, Sink, Source};
use std::alloc::Global;
use std::io::{Read, Write};
use std::process::ExitCode;

/// Runs the program on the words behind its name. It ends with the number that `run_offline` answers, and with 5 where
/// there was no memory for the words; what was read from and put into is handed back.
pub fn run_program<R: Read, W: Write, E: Drop>(
    alloc: Global,
    words: Result<Vec<String>, E>,
    reader: R,
    writer: W,
) -> (ExitCode, Input<R>, Output<W>)
    ensures ends { IfOk words (λ list. EndsCall (map string_bytes list.items)
        (R.remaining reader) (exit_status result.0)
        (W.contents writer) (⟦<Output<W> as Sink>⟧.taken result.2)) }
    ensures source { exit_status result.0 ≡ 3 → Rose 0 (⟦<Input<R> as Source>⟧.faults result.1) }
    ensures sink { exit_status result.0 ≡ 4 → Rose 0 (⟦<Output<W> as Sink>⟧.faults result.2) }
    ensures ended { exit_status result.0 ≡ 0
        → EndsAtOnce [] (⟦<Input<R> as Source>⟧.gave result.1) }
    ensures no_words { OnErr words (exit_status result.0 ≡ 5) }
    ensures nothing_put { OnErr words
        (⟦<Output<W> as Sink>⟧.taken result.2 ≡ W.contents writer) }
{
    let mut source = Input::new(reader);
    let mut sink = Output::new(writer);
    let Ok(words) = words else {
        return (ExitCode::from(NO_MEMORY), source, sink);
    };
    let status = run_offline(alloc, &words, &mut source, &mut sink);
    (ExitCode::from(status), source, sink)
}
