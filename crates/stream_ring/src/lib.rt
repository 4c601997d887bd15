//! The ring of a hart: chunks of its stream, handed from the feeder to its worker in order.
//!
//! A chunk has 1 to 64 records, and a ring has room for 16 chunks. A pass is the right to offer to a ring or to take
//! from it; each ring has one of either. What a pass has offered or taken is in proofs alone. The ring keeps one rule:
//! what was offered is what was taken and then what the ring holds, and the stream of the hart begins with it. So each
//! chunk that is taken is the next piece of the stream.
#![tactic(auto)]

mod chunk;
mod ends;
mod ring;
mod rule;
mod run_name;
mod view;

pub use chunk::Chunk;
pub use ends::{Ring, SendPass, TakePass};
pub use rule::InOrder;
pub use run_name::RunName;
pub use view::View;
