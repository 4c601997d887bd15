//! What a guest did, as events in executed order: the records of a log and the numbers that name them.
//!
//! An event is a small value: its hart and its kind with the registers and addresses that it names. A record is an
//! event or a notice, which announces an alert event of another hart. A line of a log is a record with its arcs, each
//! the number of an earlier record of another hart that came first. A log is its lines in executed order, so a
//! record's number, an event's number and its place are counts over the lines before it.
#![tactic(auto)]

mod event;
mod fed;
mod feeds;
mod heads;
mod lines;
mod log;
mod order;
mod runs;
mod short_logs;
mod slots;
mod streams;
#[cfg(test)]
mod tests;

pub use event::{Event, Kind, is_alert, valid_event};
pub use fed::{Fed, Feed};
pub use feeds::fed_of;
pub use heads::Heads;
pub use lines::Lines;
pub use log::{Arcs, Line, Log, PageKind, PageRun, PageRuns, Point, Record, some_number};
pub use order::{first_unordered, grown_paths, log_paths, noticed_paths};
pub use runs::mapped_pages;
pub use short_logs::conflicts;
pub use slots::next_slot;
pub use streams::{record_hart, stream};
