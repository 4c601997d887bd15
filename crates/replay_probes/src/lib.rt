//! Playing a log under the eyes of probes, each of which ends with one line.
//!
//! A probe is what a trait says: a meaning that is fixed from the start, namely its name, its line over the events seen
//! and where it stops, and a state that fits the events seen. So it may keep counts in place of the events. The plain
//! monitor plays the events one by one, and after it each probe that has not stopped is shown the event with its place
//! and its number; one that stops is finished and dropped at once, and only its line is kept. Everything is written for
//! probes of one type, and boxes of probes are one: that is how probes of different types look on together.
#![tactic(auto)]

mod audience;
mod boxed;
mod played;
mod probe;
mod replayer;
mod watch;
mod watches;

pub use audience::Audience;
pub use boxed::{Boxed, in_boxes};
pub use played::replay;
pub use probe::{Probe, See, Shown};
pub use replayer::{Replayed, Replayer};
