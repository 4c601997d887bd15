//! The guest's memory: pages of 4,096 bytes below address 2^24, each of them mapped or not, and some of them text.
//!
//! A directory has one entry for each of the 4,096 pages, and a mapped page owns its own bytes. So a load or a
//! store within one page is one look-up and one read or write of 1, 2 or 4 bytes; only an access that crosses a
//! page goes piece by piece. Memory is taken where pages are mapped and freed where they are unmapped.
//! Contracts see three functions of a memory: the byte at each address, which pages are mapped, which are text.
#![tactic(auto)]

mod directory;
mod fault;
mod memory;
mod page;

pub use fault::{MapFault, MemFault, NotMapped};
pub use memory::PagedMem;
