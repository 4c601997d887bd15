//! A job's run as a plan and as a feed, for workers that take its records while it runs.
//!
//! The plan of a job is that of the log which is recorded of its run. There is one such log, so the plan is known before
//! the run. The feed of a job runs it step by step and hands out the lines of that log, each as a worker takes it.
#![tactic(auto)]

mod job_feed;
mod job_plan;
mod phase;
mod run_of;
mod source;

pub use job_feed::JobFeed;
pub use job_plan::JobPlan;
