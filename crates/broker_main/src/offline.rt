// A whole call of the program on a source and a sink.
ghost use Rattle.std.specs.Prelude.{◌≡◌, ◌≢◌, ◌⊎◌, ◌≤◌, length, [], map, false, None, Some, IfSome, IsSomeAnd, IsTrue, string_bytes};
ghost use Rattle.outside.specs.Cause.{Rose};
ghost use Rattle.outside.specs.Sink.{Puts, PutsFront};
ghost use Rattle.first_world_terms.specs.Laws.{IssuesPrefixes};
ghost use Rattle.first_world_terms.specs.Run.{after_lines, text_of_script};
ghost use Rattle.first_world_terms.specs.Script.{line_texts};
ghost use Rattle.first_world_terms.specs.Turn.{opening_state};
ghost use Rattle.broker_main.specs.Outcome.{Ends, are_replay, bad_line_text, refusal_of_script, refusal_text, script_limit, text_or_run, too_long_text, usage_text, whole_text};
ghost use Rattle.broker_main.specs.Takes.{EndsAtOnce, GivesSome, ReadsOnce, StopsPast};

use crate::reading::{ReadStopped, read_script};
use crate::running::{RunStopped, run_lines};
use first_world_terms::{every_run_issues_prefixes, plain_runs_are_runs};
use outside::{Sink, Source};
use script_lines::first_bad;
use std::alloc::Global;

// The number that a call ends with.
const DONE: u8 = 0;

const REFUSED: u8 = 2;

const SOURCE_FAILED: u8 = 3;

const SINK_FAILED: u8 = 4;
/// The number where there was no memory.
pub const NO_MEMORY: u8 = 5;

/// Does what the words ask: `replay` reads a script from the source, checks all its lines, runs them, and puts what
/// they print. Ends with 0 where all was done and put; 2 for other words, a script that is too long, or one with a line
/// outside the grammar, once the text that says so was put; 3 where the source failed; 4 where the sink failed; 5 where
/// there was no memory.
pub fn run_offline<S: Source, K: Sink>(
    alloc: Global,
    words: &[String],
    source: &mut S,
    sink: &mut K,
) -> u8
    ensures statuses { (result ≡ 0) ⊎ (result ≡ 2) ⊎ (result ≡ 3) ⊎ (result ≡ 4) ⊎ (result ≡ 5) }
    ensures done { result ≡ 0 → IfSome (S.left source.old) (λ script.
        (refusal_text (map string_bytes words.now) script ≡ None)
        × Puts (K.taken sink.old) (K.taken sink.new) (text_of_script script)) }
    ensures read { result ≡ 0 → IfSome (S.left source.old) (λ _. S.left source.new ≡ Some []) }
    ensures refused { result ≡ 2 → IfSome (S.left source.old) (λ script.
        IsSomeAnd (refusal_text (map string_bytes words.now) script) (Puts (K.taken sink.old) (K.taken sink.new))) }
    ensures source { result ≡ 3 → Rose (S.faults source.old) (S.faults source.new) }
    ensures nothing_put { result ≡ 3 → K.taken sink.new ≡ K.taken sink.old }
    ensures sink { result ≡ 4 → Rose (K.faults sink.old) (K.faults sink.new) }
    ensures front { result ≡ 4 → IfSome (S.left source.old) (λ script.
        PutsFront (K.taken sink.old) (K.taken sink.new) (whole_text (map string_bytes words.now) script)) }
    ensures memory { result ≡ 5 → IfSome (S.left source.old) (λ script.
        PutsFront (K.taken sink.old) (K.taken sink.new) (whole_text (map string_bytes words.now) script)) }
    ensures asked { (result ≡ 0) ⊎ (result ≡ 3) ⊎ (result ≡ 5) → IsTrue (are_replay (map string_bytes words.now)) }
    ensures usage { are_replay (map string_bytes words.now) ≡ false
        → ((result ≡ 2) × Puts (K.taken sink.old) (K.taken sink.new) usage_text)
        ⊎ ((result ≡ 4) × PutsFront (K.taken sink.old) (K.taken sink.new) usage_text) }
    ensures not_read { are_replay (map string_bytes words.now) ≡ false → source.new ≡ source.old }
    ensures ended { result ≡ 0 → EndsAtOnce (S.gave source.old) (S.gave source.new) }
    ensures read_once { (result ≡ 2) ⊎ (result ≡ 4)
        → IsTrue (are_replay (map string_bytes words.now))
        → ReadsOnce (S.left source.old) (S.gave source.old) (S.gave source.new) }
    ensures too_long { result ≡ 2 → IsTrue (are_replay (map string_bytes words.now))
        → EndsAtOnce (S.gave source.old) (S.gave source.new)
        ⊎ (StopsPast (S.gave source.old) (S.gave source.new)
        × Puts (K.taken sink.old) (K.taken sink.new) too_long_text) }
    ensures read_some { result ≡ 3 → GivesSome (S.gave source.old) (S.gave source.new) }
    ensures read_or_ended { result ≡ 5 → GivesSome (S.gave source.old) (S.gave source.new)
        ⊎ EndsAtOnce (S.gave source.old) (S.gave source.new) }
    ensures unfailed { result ≢ 3 → S.faults source.new ≡ S.faults source.old }
    ensures prefixes { IfSome (S.left source.old) (λ script.
        IssuesPrefixes (after_lines opening_state (line_texts script)).world) }
{
    every_run_issues_prefixes();
    if !is_replay(words) {
        return refuse(sink, b"usage: replay | load SEED COUNT | inspect DIR S W\n");
    }
    match read_script(alloc, source) {
        Ok(script) => run_script(alloc, &script, sink),
        Err(ReadStopped::TooLong) => refuse(sink, b"script too long\n"),
        Err(ReadStopped::Source) => SOURCE_FAILED,
        Err(ReadStopped::Memory) => NO_MEMORY,
    }
}

// Whether the words are `replay` alone.
fn is_replay(words: &[String]) -> bool
    ensures { result ≡ are_replay (map string_bytes words.now) }
{
    match words {
        [word] => word.as_str() == "replay",
        _ => false,
    }
}

// Puts a text in place of a run.
fn refuse<K: Sink>(sink: &mut K, text: &[u8]) -> u8
    ensures ends { Ends result (Some text.now) text.now (K.taken sink.old) (K.taken sink.new) (K.faults sink.old) (K.faults sink.new) }
    ensures put { (result ≡ 2) ⊎ (result ≡ 4) }
{
    match sink.put(text) {
        Ok(()) => REFUSED,
        Err(_) => SINK_FAILED,
    }
}

// Runs a script that is not too long, if all its lines are in the grammar.
fn run_script<K: Sink>(alloc: Global, script: &[u8], sink: &mut K) -> u8
    requires { length script.now ≤ script_limit }
    ensures { Ends result (refusal_of_script script.now) (text_or_run script.now (refusal_of_script script.now))
        (K.taken sink.old) (K.taken sink.new) (K.faults sink.old) (K.faults sink.new) }
{
    plain_runs_are_runs();
    if let Some(number) = first_bad(script) {
        return refuse_line(alloc, number, sink);
    }
    match run_lines(alloc, script, sink) {
        Ok(()) => DONE,
        Err(RunStopped::Sink) => SINK_FAILED,
        Err(RunStopped::Memory) => NO_MEMORY,
    }
}

// Puts which line is outside the grammar.
fn refuse_line<K: Sink>(alloc: Global, number: u64, sink: &mut K) -> u8
    ensures { Ends result (Some (bad_line_text number)) (bad_line_text number)
        (K.taken sink.old) (K.taken sink.new) (K.faults sink.old) (K.faults sink.new) }
{
    match format!(in alloc; "line {number}: not a script line\n") {
        Ok(text) => refuse(sink, text.as_bytes()),
        Err(_) => NO_MEMORY,
    }
}
