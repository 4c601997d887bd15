//! A job's run under the eyes of workers, which take its records while it runs.
//!
//! The plan of the job makes the shared table, and each hart gets a seat and a worker. The feed of the job runs it as
//! the workers need records. What the harts found, with the words of the table, is the plain result of the recorded
//! log. What comes before and after the run is at hand for a driver of one's own.
#![tactic(auto)]

mod closing;
mod opening;
mod threaded;
mod watch;

pub use closing::closed;
pub use opening::{Begun, opened};
pub use threaded::watch_run_on_threads;
pub use watch::watch_run;
