//! The reduction of arcs: a log keeps of its candidate arcs exactly those that say something new.
//!
//! A candidate says nothing new where its source reaches its record by a path that does not use it: along the record's
//! own hart, by a notice, or by another candidate of the same record. A reducer takes a log line by line and keeps the
//! clocks of its records over all candidates. What the clock of a record knows without a candidate decides it, so each
//! candidate costs a look at no more than eight clocks, and mostly at one, that of the last record of the line's hart.
//! Contracts speak of the full log, whose arcs are all candidates.
#![tactic(auto)]

mod laws;
mod reducer;

pub use laws::{drawn_candidates, grown_reduction, recorded_logs, reduced_logs};
pub use reducer::Reducer;
