//! The probes that the program hands in: numbers of events by kind and by hart, bytes loaded and stored, and the first
//! alert. Each keeps counts in place of the events, and its counts are those of the events that it has seen.
#![tactic(auto)]

mod alert;
mod bytes;
mod harts;
mod kinds;
mod tally;

pub use alert::AlertProbe;
pub use bytes::ByteProbe;
pub use harts::HartProbe;
pub use kinds::KindProbe;
