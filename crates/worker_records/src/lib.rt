//! The records of a hart, one by one, on its seat at the shared table.
//!
//! What a worker keeps beside its seat is a state: for each register a mask or a held load, whose reads it makes when a
//! rule asks for the mask; the frames of pages that it looked up, and the checks that passed; counts and reports. Each
//! kind of record changes it, and a contract says that what it keeps is true of the plain run after the record, and
//! which reads and writes it made. A notice is taken by `take_notice`, and an event of any kind by `take_event`. The
//! operations of an alert event are made block by block and page by page.
#![tactic(auto)]

mod accesses;
mod blocks;
mod checks;
mod events;
mod late;
mod notices;
mod operations;
mod pages;
mod plain;
mod progress;
mod ranges;
mod reports;
mod shapes;
mod state;
mod steps;
mod words;

pub use state::{Found, State};
