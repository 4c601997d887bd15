//! The order in which the operations of a run may be made by harts beside each other, so that each read finds what the
//! sequential run has there.
//!
//! A plan is a log, the opening words of a table, and the operations of each record on them; its course is the list of
//! all operations in executed order. A state is counts alone: how many of its writes each hart has performed, its
//! progress word, and what it has seen of the others'. A write is performed where its rank among its hart's writes is
//! below that count, and a lane holds what the performed writes leave there. The laws speak of every consistent state:
//! where the needs of a record were seen and a path leads to it from another hart, that hart's progress word is not
//! below the path's beginning. `run_core` runs a list of steps; it keeps for each hart the place of its next write and
//! how many records have needs that it has seen, so it passes the plan once.
#![tactic(auto)]

mod course;
mod fed_moves;
mod fed_reads;
mod fed_run;
mod fed_state;
mod fed_step;
mod feed;
mod feeding;
mod lanes;
mod laws;
mod list_plan;
mod lists;
mod moves;
mod needs;
mod opening;
mod place;
mod plan;
mod record_plan;
mod refused;
mod run;
mod seek;
mod state;
mod steps;
#[cfg(test)]
mod tests;

pub use course::{Course, FIRST_WORD, Op, Operation};
pub use fed_run::run_fed;
pub use fed_state::FedState;
pub use fed_step::FedStep;
pub use laws::{
    core_is_sequential, fed_core_never_stuck, filled_plans, freed_harts, never_stuck, open_reads,
    operations_in_turn, plan_is_lawful, waiting_harts,
};
pub use list_plan::ListPlan;
pub use plan::{Plan, PlanOps};
pub use record_plan::RecordPlan;
pub use refused::CoreRefused;
pub use run::run_core;
pub use state::CoreState;
pub use steps::{Act, CoreStep};
