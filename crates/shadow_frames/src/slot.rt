//! Which nibble of the words of its page's frame an address has.
ghost use Rattle.std.specs.Prelude.{◌≡◌, ◌<◌, ◌/◌, ◌%◌};
ghost use Rattle.pl_base.specs.declared.layout.TheConstants.{BLOCK_BYTES, MEMORY_BYTES, PAGE_BYTES};

use pl_base::layout::{BLOCK_BYTES, PAGE_BYTES};

/// Nibble `byte` of word `word` of the frame of page `page`.
#[derive(Clone, Copy, Debug, PartialEq, Eq)]
pub struct Slot {
    pub page: u16,
    pub word: u8,
    pub byte: u8,
}

/// Where the nibble of an address is.
pub fn slot_of(addr: u32) -> Slot
    requires { addr < MEMORY_BYTES }
    ensures { result ≡ record {
      page = addr / PAGE_BYTES;
      word = addr % PAGE_BYTES / BLOCK_BYTES;
      byte = addr % BLOCK_BYTES;
    } }
{
    let block = BLOCK_BYTES as u32;
    Slot {
        page: (addr / PAGE_BYTES) as u16,
        word: (addr % PAGE_BYTES / block) as u8,
        byte: (addr % block) as u8,
    }
}
