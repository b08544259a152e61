//! Appends to a shard and mounts of it on disks in memory, for a clock outside.
#![tactic(auto)]

ghost use Rattle.std.specs.Prelude.{◌≡◌, ◌⊎◌};

mod groups;
mod task;
mod work;

use std::process::ExitCode;
use std::rt::Env;
use std::{env, io};

// The number that a call ends with: where what was asked was done and printed, where it could not be, and where the
// words ask for nothing.
const DONE: u8 = 0;

const FAILED: u8 = 1;

const REFUSED: u8 = 2;

// Does what the words of the call ask.
fn main(rt: HostRuntime) -> ExitCode {
    let status = match words_of_call(&rt) {
        Ok(words) => run(&rt, &words),
        Err(_) => FAILED,
    };
    ExitCode::from(status)
}

// The words behind the program's name.
fn words_of_call<R: Env + AllocGlobal>(rt: &R) -> io::Result<Vec<String>> {
    let mut words = env::args(rt)?;
    words.next();
    Ok(words.collect(rt.alloc())?)
}

// Does what the words ask, and prints what came of it. Ends with 0 where that was printed; with 1 where memory or a group was
// refused or the text could not be printed; with 2 for other words.
fn run<R: Print + Eprint + AllocGlobal>(rt: &R, words: &[String]) -> u8
    ensures { (result ≡ DONE) ⊎ ((result ≡ FAILED) ⊎ (result ≡ REFUSED)) }
{
    let Some(task) = task::read_task(words) else {
        let _ = eprintln!(rt; "usage: appends N 1|64 TIMES | mounts N 1|64 TIMES | bytes N 1|64 1");
        return REFUSED;
    };
    match work::do_task(rt.alloc(), &task) {
        Some(done) => print(rt, done),
        None => FAILED,
    }
}

// Prints a number: the number that a call ends with then.
fn print<R: Print>(rt: &R, done: u64) -> u8
    ensures { (result ≡ DONE) ⊎ (result ≡ FAILED) }
{
    match println!(rt; "{done} done") {
        Ok(()) => DONE,
        Err(_) => FAILED,
    }
}
