//! A guest to be run, and the machine that runs it: harts, a schedule and steps over the kernel's memory.
//!
//! A job is plain data. What makes it a valid one is said once, in the definition of a valid job, and whatever is
//! made of a job asks for that.
//!
//! A machine keeps the text, of which each word was read once, the kernel, the harts side by side and the turn that
//! goes on. A step fetches one instruction by its pc and does it whole, to the hart in its place; a load or a store
//! is one look-up of memory. Contracts say which prefix of the job's one run a machine stands for: a run is a list of
//! entries, in which memory, blocks, harts and turns are looked up, and its events are a list in executed order.
#![tactic(auto)]

mod asked;
mod group;
mod hart;
mod job;
mod laws;
mod machine;
mod start;
mod step;
mod text;
mod turn;

pub use group::{EventGroup, StepOut};
pub use hart::HartEnd;
pub use job::{Bytes, Item, Items, Job, Schedule, Words};
pub use laws::{has_run, one_run, opening_pages, run_events};
pub use machine::Machine;
pub use start::start_pages;
pub use turn::next_draw;
