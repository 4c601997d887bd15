//! Lifeguards and the plain rules: what each event makes of the shadow state, one by one in executed order.
//!
//! A byte of guest memory has a nibble: bit 0 says that it may be touched, bit 1 that it is defined, bit 2 that it
//! came from outside. A register has a mask, a bit for each of its four bytes. A lifeguard is a record of small
//! functions on nibbles and masks; the rule for an event is one function of that record, and every monitor, plain or
//! parallel, gives what the fold of that rule gives. The plain monitor keeps one cell for each byte of a page that
//! was mapped, and none for the other pages.
#![tactic(auto)]

mod calls;
mod cells;
mod guard;
mod laws;
mod masks;
mod page;
mod pages;
mod plain;
mod report;
mod rules;
mod shadow;

pub use calls::call_registers;
pub use guard::{CheckedRegs, Lifeguard, Name, RangeKind, load_mask};
pub use laws::{few_reports, other_harts_keep, values_in_range};
pub use plain::PlainMonitor;
pub use report::{EventPlace, Report, ReportKind};
pub use rules::{misdeed, push_found, push_misdeed, register_report};
pub use shadow::Shadow;
