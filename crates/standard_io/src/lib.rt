//! What the programs share: standard input, output and error as a source and sinks, and the words of the command line.
#![tactic(auto)]

mod command_line;
mod streams;

pub use command_line::words;
pub use streams::{Reading, Writing};
