//! Which frame of the shadow memory a page has, as far as it was looked up before.
//!
//! There are 16 slots, and a page's slot is its number modulo 16. A slot holds one page and its frame, or nothing. What
//! was entered stays until another page or frame is entered into the slot, or all slots are emptied. So what is found
//! hangs on the calls made before alone: it is right for as long as the owner empties the slots before a page's frame
//! changes.
#![tactic(auto)]

mod laws;
mod look_aside;

pub use laws::last_entry_is_found;
pub use look_aside::LookAside;
