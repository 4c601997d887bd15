//! Frames of shadow words: which word of a shared table has the nibble of a byte of guest memory.
//!
//! A shadow word has the nibbles of 16 bytes. The 256 shadow words of a page are a frame, and there are 512 frames.
//! The directory has a word for each page, with the number of its frame plus 1, or 0 where the page is not mapped. The
//! frame map has a bit for each frame, set where it is in use. A page that is mapped gets the lowest free frame.
#![tactic(auto)]

mod bits;
mod frame_map;
mod laws;
mod nibbles;
mod opening;
mod slot;
#[cfg(test)]
mod tests;
pub mod words;

pub use bits::{has_bit, with_bit, without_bit};
pub use frame_map::free_frame;
pub use laws::{
    a_frame_is_free, next_frame, one_bit, opening_represents, page_operations, pages_mapped,
    pages_represented, pages_unmapped,
};
pub use nibbles::{all_nibbles, nibble, with_nibble};
pub use opening::initial;
pub use slot::{Slot, slot_of};
