//! Commits, mounts and readings of a log on a disk in memory, for a clock outside.
#![tactic(auto)]

ghost use Rattle.std.specs.Prelude.{◌≡◌, ◌⊎◌, ◌↔◌, map, string_bytes};
ghost use Rattle.log_bench.specs.Words.{IsAsked};

mod done;
mod words;
mod work;

use std::fmt::Display;
use std::process::ExitCode;
use std::rt::Env;
use std::{env, io};

// The number that a call ends with: where what was asked was done and printed, where it could not be, and where the
// words ask for nothing.
const DONE: u8 = 0;

const FAILED: u8 = 1;

const REFUSED: u8 = 2;

// Does what the words of the call ask.
fn main(rt: HostRuntime) -> ExitCode {
    let status = match words_of_call(&rt) {
        Ok(words) => run(&rt, &words),
        Err(cause) => fail(&rt, &cause),
    };
    ExitCode::from(status)
}

// The words behind the program's name.
fn words_of_call<R: Env + AllocGlobal>(rt: &R) -> io::Result<Vec<String>> {
    let mut words = env::args(rt)?;
    words.next();
    Ok(words.collect(rt.alloc())?)
}

// Does what the words ask, and prints what is there then. Ends with 0 where that was printed; with 1 where memory was
// refused, the log refused or the text could not be printed; with 2 for other words.
fn run<R: Print + Eprint + AllocGlobal>(rt: &R, words: &[String]) -> u8
    ensures statuses { (result ≡ DONE) ⊎ (result ≡ FAILED) ⊎ (result ≡ REFUSED) }
    ensures refused { (result ≡ REFUSED) ↔ ¬ IsAsked (map string_bytes words.now) }
{
    let Some(task) = words::read_task(words) else {
        let _ = eprintln!(rt; "usage: commits N | mounts N M | entries N K M");
        return REFUSED;
    };
    match work::do_in_memory(rt.alloc(), &task) {
        Ok(done) => print(rt, &done),
        Err(refused) => fail(rt, &refused),
    }
}

// Prints a text: the number that a call ends with then.
fn print<R: Print + Eprint>(rt: &R, text: &impl Display) -> u8
    ensures { (result ≡ DONE) ⊎ (result ≡ FAILED) }
{
    match println!(rt; "{text}") {
        Ok(()) => DONE,
        Err(cause) => fail(rt, &cause),
    }
}

// Prints why the call failed: the number that it ends with.
fn fail(rt: &impl Eprint, cause: &impl Display) -> u8
    ensures { result ≡ FAILED }
{
    let _ = eprintln!(rt; "{cause}");
    FAILED
}
