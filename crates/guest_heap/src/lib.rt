//! The guest's heap: blocks that are taken and freed, first fit, from 400000 up to 4fffff hex.
//!
//! The heap is 65,536 units of 16 bytes. A table holds for each unit the asked size of the block that starts there,
//! so a block is found by one look-up; a list of holes, from low to high and no two of them touching, holds the
//! units that no block takes. A block is cut from the beginning of the first hole that is long enough, and a block that
//! is freed is joined with the holes on both sides. Contracts see the live blocks alone: at which address one
//! starts, and of what size; the holes are the code's own.
#![tactic(auto)]

mod heap;
mod holes;

pub use heap::Heap;
