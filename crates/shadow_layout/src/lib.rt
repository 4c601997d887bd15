//! The operations of each kind of event on shadow words, and that the words represent the plain state after them.
//!
//! An operation reads lanes of a word, or writes what becomes of them, so its values come from the words as they are.
//! A load or a store reads the directory's word of its page, and where that is mapped the one shadow word of its block:
//! all four lanes where blocks have 16 bytes, and the address's lane where they have 4.
#![tactic(auto)]

mod laws;

pub use laws::{event_operations, log_operations};
