//! The ground of every layer: the numbers of the guest's layout and the limits, pages by number, where
//! bytes come from and go to, the gate that workers pass, and the widths and faults of a hart.
//!
//! A source and a sink are traits with two meanings each: the bytes that are left or were written,
//! where they tell them, and a count of faults that rises at a failure and at nothing else. So a caller
//! knows after each call which bytes moved, that nothing failed without a fault that was counted, and
//! that no fault was swallowed.
//! `LineBuffer` reads a source piece by piece and hands out whole lines.
//! `MemSource` and `MemSink` work over bytes in memory and fail at the calls that they are told;
//! `CleanSource` and `CleanSink` never fail.
#![tactic(auto)]

mod clean;
mod fault_plan;
pub mod layout;
mod line_buffer;
#[cfg(test)]
mod line_buffer_tests;
mod loops;
mod mem_sink;
mod mem_source;
mod outside;
mod steps;
#[cfg(test)]
mod tests;
mod unread;
mod widths;

pub use clean::{CleanSink, CleanSource};
pub use line_buffer::LineBuffer;
pub use loops::{ReadEnd, read_all, write_all_counted};
pub use mem_sink::MemSink;
pub use mem_source::MemSource;
pub use outside::{Failed, Gate, NoMemory, OpenGate, Sink, Source};
pub use steps::Steps;
pub use widths::{FaultCause, LoadWidth, StoreWidth};
