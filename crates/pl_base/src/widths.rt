//! The widths of loads and stores, and why a hart faults.
ghost use Rattle.std.specs.Prelude.{◌≡◌};

/// How many bytes a load takes, and whether its top bit is spread: `B` and `H` are signed, `Bu` and `Hu` unsigned.
#[derive(Clone, Copy, Debug, PartialEq, Eq)]
pub enum LoadWidth {
    B,
    H,
    W,
    Bu,
    Hu,
}

impl LoadWidth {
    ghost use Rattle.pl_base.specs.Widths.{load_bytes};

    /// How many bytes are read: 1, 2 or 4.
    pub fn bytes(self) -> u8
        ensures { result ≡ load_bytes self }
    {
        match self {
            LoadWidth::B | LoadWidth::Bu => 1,
            LoadWidth::H | LoadWidth::Hu => 2,
            LoadWidth::W => 4,
        }
    }
}

/// How many bytes a store writes: 1, 2 or 4.
#[derive(Clone, Copy, Debug, PartialEq, Eq)]
pub enum StoreWidth {
    B,
    H,
    W,
}

impl StoreWidth {
    ghost use Rattle.pl_base.specs.Widths.{store_bytes};

    /// How many bytes are written: 1, 2 or 4.
    pub fn bytes(self) -> u8
        ensures { result ≡ store_bytes self }
    {
        match self {
            StoreWidth::B => 1,
            StoreWidth::H => 2,
            StoreWidth::W => 4,
        }
    }
}

/// Why a hart faulted.
#[derive(Clone, Copy, Debug, PartialEq, Eq)]
pub enum FaultCause {
    /// The program counter is not a multiple of 4, or names no word of text.
    Pc,
    /// The word is no instruction.
    Illegal,
    /// The address is not a multiple of the width.
    Align,
    /// A byte lies on no mapped page.
    Unmapped,
    /// A store to text.
    ReadOnly,
}
