//! The text of a log, read line by line.
//!
//! What is left of the bytes begins with a syntactically valid line, or with none; the rules then judge that line by
//! the lines before it. The reader keeps a tally of the lines so far, the few numbers that the rules ask for, so a line
//! is judged without a look back; it takes no memory for a line.
#![tactic(auto)]

mod cause;
mod digits;
mod faults;
mod grow;
mod judge;
mod laws;
mod page_set;
mod read;
mod reader;
mod source;
mod stream;
mod take;
mod tally;
mod write;

pub use cause::{LogCause, LogFault, LogRefused};
pub use faults::one_fault;
pub use grow::{add_line, begin_log};
pub use laws::{log_laws, streamed_lines};
pub use read::read_log;
pub use reader::Row;
pub use source::read_source;
pub use stream::{LogEnd, LogStream, Opening};
pub use write::write_log;
