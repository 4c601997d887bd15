//! What each record of a log knows of the others: its clock, and the last accesses of each hart to its block.
//!
//! A clock changes only where an arc or a notice leads to a record. So a clock is kept for each change, and for each
//! record which one it has: 4 bytes a record and 32 a change. A clock is found by a record's number, without a search.
//! The last accesses are a row for each block that occurs, and each block has the number of its row, so a log that
//! touches few blocks takes little memory. Both are filled line by line, and contracts speak of every log that begins
//! with the lines taken so far.
#![tactic(auto)]

mod clock;
mod clocks;
mod growth;
mod lasts;
#[cfg(test)]
mod tests;

pub use clock::Clock;
pub use clocks::Clocks;
pub use growth::grown_tables;
pub use lasts::LastAccesses;
