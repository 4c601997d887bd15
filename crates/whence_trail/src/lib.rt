//! From an event of a run back to its instruction and its block: what is kept of the events so far.
//!
//! A trail takes the events of a run one by one, each with the address of its instruction. It keeps how many events
//! each hart had, the live blocks and those freed last, and the answer to each of the pairs that were asked for. A
//! block that a later one covers is dropped, since no later event lies in it. When an event is one of a pair, its
//! answer is made from the blocks of that moment, so the run is gone over once.
#![tactic(auto)]

mod block;
mod happening;
mod near;
mod trail;

pub use block::Block;
pub use happening::{Happening, Origin};
pub use near::Near;
pub use trail::{Answer, Found, Pair, Trail};
