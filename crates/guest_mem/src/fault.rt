//! Why pages are not mapped, and bytes not read or written.
ghost use Rattle.std.specs.Prelude.{◌≡◌};
ghost use Rattle.guest_mem.specs.declared.fault.MapFault.TheVariants.{NoMemory as no_memory};

use pl_base::NoMemory;

/// Why pages were not mapped. Where several causes hold, the first of this list is named.
#[derive(Clone, Copy, Debug, PartialEq, Eq)]
pub enum MapFault {
    /// A page is past 4,095.
    Range,
    /// One of the pages is mapped already.
    Mapped,
    /// More than 512 pages would be mapped.
    TooMany,
    /// No memory was found for the pages.
    NoMemory,
}

impl From<NoMemory> for MapFault {
    ghost from_gives = { λ _ fault. fault ≡ no_memory };

    fn from(_refused: NoMemory) -> MapFault {
        MapFault::NoMemory
    }
}

/// One of the pages is not mapped, or is past 4,095.
#[derive(Clone, Copy, Debug, PartialEq, Eq)]
pub struct NotMapped;

/// Why bytes were not read or written.
#[derive(Clone, Copy, Debug, PartialEq, Eq)]
pub enum MemFault {
    /// A byte lies on no mapped page; `byte` is the address of the first such one.
    Unmapped { byte: u32 },
    /// All bytes are mapped, and one that would be written is text.
    ReadOnly,
}
