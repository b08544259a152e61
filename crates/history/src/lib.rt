//! A history that only proofs read: the values that something had, one after another, as they were recorded. It takes no
//! memory, and its methods do nothing at run time.
//!
//! An owner keeps one in a field and records before it changes what it owns:
//!
//!     self.past = self.past.and(&self.state);
//!
//! Its contract then says how the history goes on. As a history can be made only of values that stood, a clause on it
//! tells the order in which an owner did its work.
#![tactic(auto)]

mod history;

pub use history::History;
