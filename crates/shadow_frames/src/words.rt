//! Where the words of the shared table are.
use order_core::FIRST_WORD;
use pl_base::layout::{BLOCK_BYTES, MAX_MAPPED_PAGES, PAGE_BYTES, PAGE_COUNT};

/// The first word of the frame map, which has a bit for each frame.
pub const FRAME_MAP_START: u32 = FIRST_WORD;

/// The first word of the directory, which has a word for each page.
pub const DIRECTORY_START: u32 = FRAME_MAP_START + MAX_MAPPED_PAGES / 64;

/// The first word of frame 0; the words of the other frames follow in their order.
pub const SHADOW_START: u32 = DIRECTORY_START + PAGE_COUNT;

/// How many words a frame has: one for each 16 bytes of a page.
pub const FRAME_WORDS: u32 = PAGE_BYTES / BLOCK_BYTES as u32;

/// How many words the table has.
pub const TABLE_WORDS: u32 = SHADOW_START + MAX_MAPPED_PAGES * FRAME_WORDS;
