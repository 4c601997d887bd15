//! The drivers of a run: they turn the workers of all harts until all records are taken, on one thread or on several.
//!
//! A driver of one thread turns each worker in a round. Where no worker goes on, all workers tell each other how far
//! they are, and then one of them goes on: so the driver returns. A driver of several threads keeps the workers in rows
//! of slots, one slot a hart; each thread has a row of its own, and the slots of the others are idle there. After the
//! last record a slot has what its worker has found. The results of all harts are put together by the place of the
//! event that a report is about.
//!
//! Two drivers feed their workers. That of one thread takes records in pieces. That of several threads has a ring for
//! each hart: the caller offers the records in chunks, and the reader of a hart, a worker with the right to take from
//! its ring, is fed a chunk where it has taken all. After the threads have ended, each reader takes what is left, until
//! it has as many records as were offered; the workers are then fed whole, and end on one thread.
#![tactic(auto)]

mod caller;
mod drain;
mod finished;
mod naming;
mod one_thread;
mod online;
mod online_one;
mod pieces;
mod reader;
mod reader_threads;
mod readers;
mod reading;
mod reports;
mod round_end;
mod row;
mod slot;
mod threads;
mod turns;

pub use finished::Finished;
pub use one_thread::run_one_thread;
pub use online::run_online;
pub use online_one::run_online_one;
pub use reports::merge;
pub use threads::run_threads;
