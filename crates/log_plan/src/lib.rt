//! The plan of a log under a lifeguard: what its records do to the words of the shared table, and that this is lawful.
//!
//! The opening words are those of the log's pages, and the operations of a record are filled from the words that the
//! records before it leave. Two operations of different harts that clash have a path between their records: those of a
//! load or a store on one block by the order of the log, those of an alert event by its notices. Where a frame served
//! two pages, an alert event is between the two records, and the path leads over it.
#![tactic(auto)]

mod laws;
mod plan;

pub use laws::{last_words, plan_laws, wide_words};
pub use plan::LogPlan;
