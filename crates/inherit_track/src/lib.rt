//! What is known of the masks of a hart's registers, where values that loads read may be looked up later.
//!
//! A register's state is known, with its mask, or held: it stands for what a load finds, by the load's source. A copy
//! passes the state on, so several registers may have one source. Once the source's mask was looked up, all of them
//! are known. A load whose register is written before anybody asks for it is never looked up. Register 0 is always
//! known, and clear.
#![tactic(auto)]

mod held;
mod inherit;
mod laws;
mod state;
mod states;

pub use inherit::Inherit;
pub use laws::held_sources_were_loaded;
pub use state::{Held, RegState};
