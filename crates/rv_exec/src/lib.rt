//! One instruction of one hart of RV32IM.
//!
//! A hart is its pc and 32 registers in an array, of which the first is always 0. `advance` does an
//! instruction that needs neither memory nor the kernel to the hart itself; a load, a store or a call
//! is the caller's, who ends it by the `end` call of its kind. `begin` reads the word too and gives a
//! new hart, as the `finish` calls do, and leaves the old one as it is.
#![tactic(auto)]

mod arithmetic;
mod effect;
mod hart;
mod step;

pub use effect::Effect;
pub use hart::HartState;
pub use step::{
    advance, begin, end_call, end_load, end_store, finish_call, finish_load, finish_store,
};
