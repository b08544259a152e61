//! A program that reads packets, streams of bytes and lists of properties, one in each line of standard input, and
//! prints a line for each.
//!
//!     read 4003000700            prints  ok 40020007
//!     feed 100 C000 30 020000    prints  c000 30020000 rest
//!     props will 020102          prints  bad value
//!
//! - `read HEX`: a packet, which is written again behind `ok`; or `version`, `malformed`, or `protocol` and the number
//!   of the rule that it breaks.
//! - `feed LIMIT HEX HEX ..`: pieces of a stream, which are fed to a framer with this limit, a number of four bytes in
//!   decimal. Its whole packets, and then `rest`, or `too large` or `bad length` where the stream is refused.
//! - `props HOLDER HEX`: a list of properties with its length in front, which is written again behind `ok`; or
//!   `unknown`, `misplaced`, `spelling`, `repeated` or `bad value`. HOLDER is `connect` to `auth`, or `will`.
//!
//! Each other line prints `not a line`. One blank parts two words, a line feed ends a line, and a carriage return is a
//! byte of its line like others. HEX is read as the crate `hex` reads it, pairs of digits of either case, and written
//! in lower case; `-` stands for no bytes. The program ends with 0; with 3 where reading failed, 4 where writing
//! failed, and 5 where there was no memory.
//!
//! Read `specs/Text.antt` first, what a line prints, then `specs/Command.antt`, what it asks for. `specs/Lines.antt`
//! has the lines and words, and `specs/Outcome.antt` how a call ends.
#![tactic(auto)]

mod answer;
mod command;
mod digits;
mod feeding;
mod holder;
mod lines;
mod listing;
mod number;
mod packet;
mod program;
mod reading;

use std::io;
use std::process::ExitCode;

fn main(rt: HostRuntime) -> ExitCode {
    program::run_program(rt.alloc(), rt.reader(), io::writer(&rt)).0
}
