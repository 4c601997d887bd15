//! Tests of the plan of a log as lists, run step by step.
#![tactic(auto)]

#[cfg(test)]
mod two_harts;
