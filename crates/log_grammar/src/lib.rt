//! The syntax of a log's text: what one line says.
//!
//! A text begins with a header, a run of pages or a record that is syntactically valid, or with none;
//! nothing is asked of the lines before it. No memory is taken: the arcs of a record are put into a list
//! of eight numbers that the caller keeps.
#![tactic(auto)]

mod grammar;
mod points;

pub use grammar::{header_at, page_at, row_at};
pub use points::ArcList;
