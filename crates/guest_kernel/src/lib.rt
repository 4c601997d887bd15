//! The kernel of the guest: its calls, over the guest's memory, its heap, the bytes from outside and the bytes to it.
//!
//! A kernel owns the paged memory, the heap's blocks, the whole input with a count of the bytes that were taken, and
//! the output so far. A call tells by its event what it changed: contracts see the memory as functions, the live
//! blocks, the input that is left and the output, and `after` is what each event makes of them. What a call needs of
//! memory it takes before it changes anything.
#![tactic(auto)]

mod call;
mod kernel;
mod pages;

pub use call::{CallArgs, KernelStep};
pub use kernel::Kernel;
