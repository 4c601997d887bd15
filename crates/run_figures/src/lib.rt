//! The figures of a run: what its recorded log and the three lifeguards come to.
//!
//! A tally counts the records and arcs of a run's lines as they are recorded, and plays its events under each lifeguard
//! by the plain rules; no line is kept.
#![tactic(auto)]

mod counted;
mod tally;

pub use counted::{Figures, run_figures};
