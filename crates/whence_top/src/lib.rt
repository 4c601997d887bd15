//! From an event of a report back to its line: words and a job in, a text, a note and a status out.
//!
//! The words name 1 to 8 events, each by its hart and its number. The job is read whole and run once, and what is told
//! of the events is written whole, in one go. Whatever ends the call before that has a status and a note of its own.
#![tactic(auto)]

mod answer;
mod asked;
mod ends;
mod laws;
mod top;

pub use laws::one_answer;
pub use top::whence_top;
