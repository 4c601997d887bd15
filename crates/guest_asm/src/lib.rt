//! The text of a job: a guest in assembler text, with what it is run on, the listing of its words, and jobs that are
//! drawn from numbers.
//!
//! A line means an optional label and an optional statement, whatever comes before it. The first pass reads the lines
//! one by one, tries the rules against the lines before, and keeps each statement with its place and each label with
//! its address. The second pass puts the addresses into the words.
#![tactic(auto)]

mod action;
mod build;
mod bytes;
mod cause;
mod code;
mod directive;
mod generator;
mod laws;
mod line;
mod list;
mod mnemonic;
mod number;
mod operand;
mod read;
mod rules;
mod scan;
mod statement;

pub use cause::{JobCause, JobFault, JobRefused};
pub use generator::generate;
pub use laws::{eight_digits, one_fault, register_names};
pub use list::{listing, word_text};
pub use read::{LinedJob, read_job, read_lined_job};
