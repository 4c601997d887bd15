//! Every number of the guest's layout and every limit, once.
//!
//! Addresses and sizes are in bytes where their names do not say pages. A name in `_START` is the first
//! address of a region, one in `_END` the first address after it.

/// How many bytes a page has.
pub const PAGE_BYTES: u32 = 4096;

/// How many pages the address space has; pages are numbered from 0 to 4,095.
pub const PAGE_COUNT: u32 = 4096;

/// How many bytes the address space has: 16 MiB, so each address is below 1000000 hex.
pub const MEMORY_BYTES: u32 = PAGE_COUNT * PAGE_BYTES;

/// How many pages are mapped at once, at most.
pub const MAX_MAPPED_PAGES: u32 = 512;

/// The first address of text, which has 1 to `MAX_TEXT_WORDS` words.
pub const TEXT_START: u32 = 0x1_0000;

/// How many words of 4 bytes text has, at most: 16 pages of them.
pub const MAX_TEXT_WORDS: u32 = 16_384;

/// The first address of data, which has 0 to `MAX_DATA_BYTES` bytes.
pub const DATA_START: u32 = 0x10_0000;

/// How many bytes data has, at most: 64 pages of them.
pub const MAX_DATA_BYTES: u32 = 262_144;

/// The first address of the heap.
pub const HEAP_START: u32 = 0x40_0000;

/// The first address after the heap.
pub const HEAP_END: u32 = 0x50_0000;

/// How many bytes a unit of the heap has: each block takes whole units.
pub const UNIT_BYTES: u32 = 16;

/// How many units the heap has.
pub const HEAP_UNITS: u32 = (HEAP_END - HEAP_START) / UNIT_BYTES;

/// The first address of the region in which a guest maps pages.
pub const MAP_START: u32 = 0x80_0000;

/// The first address after the region in which a guest maps pages.
pub const MAP_END: u32 = 0xe0_0000;

/// The first address of the stack of hart 0. The stacks of the other harts follow in their order.
pub const STACKS_START: u32 = 0xf0_0000;

/// How many bytes the stack of one hart has: 4 pages.
pub const STACK_BYTES: u32 = 0x4000;

/// How many harts there are, at most; they are numbered from 0 to 7.
pub const MAX_HARTS: u8 = 8;

/// How many registers of a hart a lifeguard follows: 0 to 31, and two of its own.
pub const REGISTERS: u8 = 34;

/// How many lanes a word of the shared table has.
pub const LANES: u8 = 4;

/// How many bytes a block has by which accesses of harts are ordered.
pub const BLOCK_BYTES: u8 = 16;

/// How many bytes such a block has where blocks are small.
pub const SMALL_BLOCK_BYTES: u8 = 4;

/// How many steps a run takes, at most.
pub const MAX_STEPS: u32 = 250_000;

/// How many bytes one call of the kernel allocates, reads or writes, at most: 64 KiB.
pub const MAX_CALL_BYTES: u32 = 65_536;

/// How many bytes a run writes outside, at most: 1 MiB.
pub const MAX_OUTPUT_BYTES: u32 = 1_048_576;

/// How many bytes the text of a job has, at most: 1 MiB.
pub const MAX_JOB_BYTES: u32 = 1_048_576;

/// How many records a log has, at most.
pub const MAX_RECORDS: u32 = 2_000_000;

/// How many bytes the text of a log has, at most: 64 MiB.
pub const MAX_LOG_BYTES: u32 = 67_108_864;

/// How many lines a recorder makes, at most: each event has its own, and a notice in each other hart.
pub const MAX_LINES: u32 = 16_000_000;

/// How many records of a hart's stream lie in one chunk, at most.
pub const CHUNK_RECORDS: usize = 64;

/// How many chunks a ring has room for.
pub const RING_CHUNKS: usize = 16;
