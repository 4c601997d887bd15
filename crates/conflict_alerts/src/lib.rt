//! Notices of alert events: before each alert event every other hart is told of it.
//!
//! A placer counts the records of each hart, since a notice names the number of the alert event, which is a record of
//! its hart, and is a record of its own hart itself. Harts that have ended are told too. The placed log of some events
//! is a function of them; contracts speak of every list of events that may have been placed so far.
#![tactic(auto)]

mod laws;
mod placer;

pub use laws::{placed_events, placed_logs, placed_notices};
pub use placer::Placer;
