//! The worker of one hart: it is fed the records of the hart's stream, and takes them in turns.
//!
//! A worker has its lifeguard, the seat of its hart, the state that it keeps of the records taken, and records that it
//! was fed. Where all of these are taken, it forgets them once it is fed more. It takes a record once it has seen what
//! the record needs of other harts, and leaves reads of loads for later. Its progress word stays below each load that
//! it holds, and at most 64 records below what it has taken: where the oldest held load is too old for that, it is
//! read.
#![tactic(auto)]

mod begin;
mod needs;
mod one_record;
mod progress;
mod rows;
mod stream;
mod turns;
mod worker;

pub use worker::Worker;
