//! The top call with the standard probes at hand.
//!
//! The probes are made here, in one order, and handed to the top call, so that the program and the rows of its tests
//! run the same calls.
#![tactic(auto)]

mod probes;
mod threads;
mod top;

pub use threads::standard_paralog;
pub use top::standard_top;
