//! The texts of what the workers of a log find.
//!
//! The reports of all harts are put together by place; the masks are those of the harts, in order, and the runs of
//! bytes are read off the words of the shared table. So the text is that of the plain result.
#![tactic(auto)]

mod counts;
mod found;
mod rows;

pub use counts::counts_text;
pub use found::{Found, text_of};
