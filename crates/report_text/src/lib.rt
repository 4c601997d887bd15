//! The text of a report, and the runs of bytes that it shows.
//!
//! The text is written line by line into one growing buffer: the lifeguard with the number of harts, the number of
//! reports, the reports by place, the registers whose masks are not 0, and the runs of bytes with one nibble that is
//! not 0. A run is as long as it can be, so a state has one list of runs. Runs are found in one pass over all bytes,
//! through whatever tells the nibble of a byte: the finder knows of no representation.
#![tactic(auto)]

mod frame_runs;
mod lines;
mod runs;

pub use frame_runs::runs_of_words;
pub use lines::text;
pub use runs::{ByteRun, runs_of_plain};
