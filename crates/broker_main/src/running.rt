// A run of a script's lines.
ghost use Rattle.std.specs.Prelude.{◌≡◌, ◌≤◌, OnOk, OnErr, IfErr};
ghost use Rattle.outside.specs.Cause.{HasCause};
ghost use Rattle.outside.specs.Sink.{Puts, PutsFront};
ghost use Rattle.first_world_terms.specs.PlainBroker.{empty_broker, plain_step, plain_text};
ghost use Rattle.first_world_terms.specs.Run.{line_or_nothing};
ghost use Rattle.first_world_terms.specs.Script.{line_of, line_texts};
ghost use Rattle.first_world_terms.specs.Text.{text_of_outs};
ghost use Rattle.broker_main.specs.Outcome.{StopsRun};
ghost use Rattle.broker_main.specs.declared.running.RunStopped.TheVariants.{Memory, Sink};

use crate::broker::Broker;
use first_topic_name::first_piece;
use outside::{Failed, Sink};
use script_lines::{Line, read_line};
use std::alloc::{AllocError, Global};

/// Why a run stopped before its end.
#[derive(Clone, Copy, Debug, PartialEq, Eq)]
pub enum RunStopped {
    /// The sink failed.
    Sink,
    /// There was no memory.
    Memory,
}

impl From<Failed> for RunStopped {
    ghost from_gives = { λ _ e. e ≡ Sink };

    fn from(_failed: Failed) -> RunStopped {
        RunStopped::Sink
    }
}

impl From<AllocError> for RunStopped {
    ghost from_gives = { λ _ e. e ≡ Memory };

    fn from(_refused: AllocError) -> RunStopped {
        RunStopped::Memory
    }
}

/// Does the lines of a script in order, and puts what each prints. A line outside the grammar does nothing.
pub fn run_lines<K: Sink>(alloc: Global, script: &[u8], sink: &mut K) -> Result<(), RunStopped>
    ensures ok { OnOk result (Puts (K.taken sink.old) (K.taken sink.new) (plain_text empty_broker (line_texts script.now))) }
    ensures err { OnErr result (PutsFront (K.taken sink.old) (K.taken sink.new) (plain_text empty_broker (line_texts script.now))) }
    ensures later { K.faults sink.old ≤ K.faults sink.new }
    ensures stopped { IfErr result (λ why. StopsRun why (K.faults sink.old) (K.faults sink.new)) }
{
    let mut broker = Broker::new(alloc);
    let mut text = Vec::new(alloc);
    let mut rest = script;
    'lines: loop {
        let (line, behind) = first_piece(rest, b'\n');
        run_line(alloc, &mut broker, line, &mut text, sink)?;
        match behind {
            None => return Ok(()),
            Some(behind) => rest = behind,
        }
    }
}

// Does the line of this text, and puts what it prints. `text` is room to write that in.
fn run_line<K: Sink>(
    alloc: Global,
    broker: &mut Broker,
    line: &[u8],
    text: &mut Vec<u8>,
    sink: &mut K,
) -> Result<(), RunStopped>
    ensures broker { OnOk result (broker.new ≡ (plain_step (line_or_nothing (line_of line.now)) broker.old).broker) }
    ensures ok { OnOk result (Puts (K.taken sink.old) (K.taken sink.new)
        (text_of_outs (plain_step (line_or_nothing (line_of line.now)) broker.old).outs)) }
    ensures err { OnErr result (PutsFront (K.taken sink.old) (K.taken sink.new)
        (text_of_outs (plain_step (line_or_nothing (line_of line.now)) broker.old).outs)) }
    ensures later { K.faults sink.old ≤ K.faults sink.new }
    ensures stopped { IfErr result (λ why. StopsRun why (K.faults sink.old) (K.faults sink.new)) }
{
    match read_line(alloc, line)? {
        None | Some(Line::Nothing) => Ok(()),
        Some(line) => {
            text.clear();
            broker.line(alloc, line, text)?;
            put_some(sink, text)?;
            Ok(())
        }
    }
}

// Puts a text, if it is not empty.
fn put_some<K: Sink>(sink: &mut K, text: &[u8]) -> Result<(), Failed>
    ensures ok { OnOk result (Puts (K.taken sink.old) (K.taken sink.new) text.now) }
    ensures err { OnErr result (PutsFront (K.taken sink.old) (K.taken sink.new) text.now) }
    ensures cause { HasCause (K.faults sink.old) (K.faults sink.new) result }
{
    if text.is_empty() {
        return Ok(());
    }
    sink.put(text)
}
