//! Numbers as texts: each number has one spelling in a base, without leading zeros, and is read where it is.
//!
//! A reader takes a text and gives the number that it begins with and the rest of the text, so that a line is read by
//! one reader after the other with no copy and no search for its end.
#![tactic(auto)]

mod bytes;
mod digit;
mod number;

pub use bytes::{after_byte, after_word, first_byte};
pub use digit::{digit_at, short_decimal_at};
pub use number::{decimal_at, hex_at, number_at, one_number, parse_number};
