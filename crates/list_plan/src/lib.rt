//! The plan of a log as lists, so that it can be run.
//!
//! The words of the table are kept as the records before a line leave them. The operations of the line's record are
//! made on them one by one, each with the value that its word holds or gets, and are kept with the record's needs in
//! the list of its hart. It is a plain body, made for tests: its time is near the number of lines and operations.
#![tactic(auto)]

mod blocks;
mod copies;
mod filler;
mod frames;
mod kinds;
mod listing;
mod rows;

pub use listing::list_plan;
