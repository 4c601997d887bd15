//! What a driver knows of the worker of a hart, however the worker does its work.
//!
//! A worker has the seat of its hart, is fed the records of its hart's stream, and takes them in order. Contracts see
//! it as one value: the plan whose operations it performs, the view of its seat, what it was fed, and how many records
//! it has taken. A turn says how it ended. A worker that waits names the hart that is not far enough, and a number that
//! it loaded in that turn. Once the workers have heard how far each other one is, they cannot all wait.
#![tactic(auto)]

mod laws;
mod worker;

pub use laws::{answers_tell, not_all_are_stuck};
pub use worker::{FeedRefused, HartResult, Turn, TurnWorker};
