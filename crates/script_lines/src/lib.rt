//! The lines of a script, and the text that is printed.
#![tactic(auto)]

mod bad_line;
mod hexadecimal;
mod line;
mod number;
mod parts;
mod printing;
#[cfg(test)]
mod tests;

pub use bad_line::first_bad;
pub use line::{Line, is_line, read_line};
pub use printing::{put_closed, put_sent};
