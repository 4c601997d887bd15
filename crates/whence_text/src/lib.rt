//! The answer about the run of a job: which instruction gave an event, its line, and where the block of its address
//! came from and went.
//!
//! The job is run once, and a trail is all that is kept of the run. The answers are written at its end, each
//! instruction with the line that its word was read from.
#![tactic(auto)]

mod run;
mod text;

pub use run::answer_job;
