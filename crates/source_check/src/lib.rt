//! The order check of a log that is read from its source line by line. No log is kept, but what the check needs of it.
#![tactic(auto)]

mod row;
mod skip;
mod source;
#[cfg(test)]
mod tests;

pub use source::check_source;
