//! The recorder of a run: its events become a log, with notices and arcs.
//!
//! A placer adds the notices of alert events. A capture keeps for each block the last load and the last store of each
//! hart, which give the candidates of the next access. A reducer drops the candidates that say nothing new. The log of
//! some events is a function of them: contracts speak of the events and lines so far, whatever they are.
#![tactic(auto)]

mod capture;
mod laws;
mod marker;
mod recaptured;
mod recorder;

pub use capture::Capture;
pub use laws::{recorded_events, recorder_lines};
pub use marker::Marker;
pub use recaptured::recapture;
pub use recorder::Recorder;
