//! The recorded log of a job's run, whether or not a machine runs it.
//!
//! Each valid job has one. It is made line by line, as a recorder would: a line's candidates are found among the lines
//! before it, and clocks decide which of them are spare. So the lines that were recorded of a part of the run are the
//! start of the log.
#![tactic(auto)]

mod laws;

pub use laws::run_logs;
