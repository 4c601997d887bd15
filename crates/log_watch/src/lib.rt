//! The workers of a whole log: each is fed the records of its hart, all are run, and the shared table is closed.
//!
//! The plan of an ordered log makes the table, and each hart gets a seat and a worker. The log is passed once, and each
//! line goes to the worker of its hart. After the run the seats are joined again, so that the words of the table are
//! those of the plain state. What the harts found, with these words, is the plain result of the log.
#![tactic(auto)]

mod closing;
mod crew;
mod feeding;
mod lines;
mod threaded;
mod watch;
mod watched;

pub use closing::last_words;
pub use crew::first_crew;
pub use threaded::watch_on_threads;
pub use watch::watch_log;
pub use watched::Watched;
