//! Runs of guests as logs: what is written of a job's run, and of a log that is recorded anew.
//!
//! A recording takes a machine and a recorder step by step through the run of a job, and gives the lines of each step.
//! Its lines become the text of a log at once; none are kept.
#![tactic(auto)]

mod laws;
mod recording;
#[cfg(test)]
mod tests;
mod upgrade;
mod written;

pub use laws::{recorded_runs, recording_lines};
pub use recording::Recording;
pub use upgrade::upgrade_source;
pub use written::record_job;
