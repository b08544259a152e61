//! The broker's programs.
#![tactic(auto)]

mod broker;
mod finding;
mod offline;
mod program;
mod reading;
mod running;
#[cfg(test)]
mod tests;

use std::process::ExitCode;
use std::{env, io};

fn main(rt: HostRuntime) -> ExitCode {
    program::run_program(rt.alloc(), words(&rt), rt.reader(), io::writer(&rt)).0
}

// The words behind the program's name.
fn words(rt: &HostRuntime) -> io::Result<Vec<String>> {
    let mut words = env::args(rt)?;
    words.next();
    Ok(words.collect(rt.alloc())?)
}
