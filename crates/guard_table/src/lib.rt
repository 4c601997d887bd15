//! The one table that the workers of a run share: the progress words of its harts, and the words that its records read
//! and write. Each call of `Monitor` on a hart's seat is one step on one word, takes no memory and never waits.
//!
//! Word 0 is the table's own, words 1 to 8 are the progress words of harts 0 to 7, and the other words are the plan's.
//! A seat is a right to step, of no bytes but a hart and its progress word. What a seat knows is its view, which is in
//! proofs alone: how many writes its hart has performed, its progress word, and what it has seen of the others'. The
//! table keeps one rule: at every moment between two steps its words and the views of its seats represent a consistent
//! state of the core. So a step is allowed by what its own seat knows, a read finds the value of the sequential run,
//! and at the end the words are the last ones of that run.
#![tactic(auto)]

mod laws;
mod monitor;
mod put;
mod rule;
mod seats;
#[cfg(test)]
mod tests;
mod view;

pub use laws::{
    late_reads, rule_of_table, seat_steps_keep_core, table_is_core, word_steps_are_core_steps,
};
pub use put::Put;
pub use rule::CoreRule;
pub use seats::{CloseRefused, GuardSeat, Head, Monitor, Note};
pub use view::{Role, View};
