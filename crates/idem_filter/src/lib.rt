//! Which checks of accesses have passed, so that the same check need not be made again.
//!
//! There are 32 slots, and the slot of an address is its word's number modulo 32, a word being 4 bytes. A slot holds
//! the address and the width of one check, or nothing. What was entered stays until another check is entered into the
//! slot, or all slots are emptied. So a hit hangs on the calls made before alone: it is right where only checks that
//! pass are entered, for as long as the owner empties the slots before a check's outcome changes.
#![tactic(auto)]

mod filter;
mod laws;

pub use filter::Filter;
pub use laws::last_check_hits;
