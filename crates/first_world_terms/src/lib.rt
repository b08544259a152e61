//! Definitions of the world, its moves, the lines of a script and their text, and the laws of its runs.
#![tactic(auto)]

mod laws;

pub use laws::{every_run_issues_prefixes, plain_runs_are_runs};
