//! A job: its text, data, harts, schedule and input.
use std::alloc::{AllocError, Global};
use std::marker::Model;

/// A turn of a schedule by a list: hart `hart` takes `count` steps.
#[derive(Clone, Copy, Debug, PartialEq, Eq)]
pub struct Item {
    pub hart: u8,
    /// 1 to 250,000.
    pub count: u32,
}

/// Turns of a schedule, in order.
#[derive(Drop)]
pub struct Items {
    items: Vec<Item>,
}

impl Model for Items {
    ghost use Rattle.std.specs.Prelude.{List};
    ghost use Rattle.core_sim.specs.declared.job.Item.{Item};

    ghost Value = { List Item };

    ghost view = { λ turns. turns.items.items };
}

impl Items {
    ghost use Rattle.std.specs.Prelude.{◌≡◌, [], ◌∷◌, ◌++◌, OnOk, OnErr};

    pub fn new(alloc: Global) -> Items
        ensures { result ≡ [] }
    {
        Items {
            items: Vec::new(alloc),
        }
    }

    /// These turns; no memory is taken.
    pub fn from_vec(items: Vec<Item>) -> Items
        ensures { result ≡ items.items }
    {
        Items { items }
    }

    /// Gives the turns back; no memory is taken.
    pub fn into_vec(self) -> Vec<Item>
        ensures { result.items ≡ self }
    {
        let Items { items } = self;
        items
    }

    /// One more turn at the end. Without memory the turns stay.
    pub fn push(&mut self, item: Item) -> Result<(), AllocError>
        ensures ok { OnOk result (self.new ≡ self.old ++ item ∷ []) }
        ensures err { OnErr result (self.new ≡ self.old) }
    {
        self.items.push(item)?;
        Ok(())
    }

    pub fn as_slice(&self) -> &[Item]
        ensures { result.now ≡ self.now }
    {
        self.items.as_slice()
    }
}

/// The words of a text, in order.
#[derive(Drop)]
pub struct Words {
    items: Vec<u32>,
}

impl Model for Words {
    ghost use Rattle.std.specs.Prelude.{List, ℕ};

    ghost Value = { List ℕ };

    ghost view = { λ words. words.items.items };
}

impl Words {
    ghost use Rattle.std.specs.Prelude.{◌≡◌, [], ◌∷◌, ◌++◌, OnOk, OnErr};

    pub fn new(alloc: Global) -> Words
        ensures { result ≡ [] }
    {
        Words {
            items: Vec::new(alloc),
        }
    }

    /// These words; no memory is taken.
    pub fn from_vec(items: Vec<u32>) -> Words
        ensures { result ≡ items.items }
    {
        Words { items }
    }

    /// Gives the words back; no memory is taken.
    pub fn into_vec(self) -> Vec<u32>
        ensures { result.items ≡ self }
    {
        let Words { items } = self;
        items
    }

    /// One more word at the end. Without memory the words stay.
    pub fn push(&mut self, word: u32) -> Result<(), AllocError>
        ensures ok { OnOk result (self.new ≡ self.old ++ word ∷ []) }
        ensures err { OnErr result (self.new ≡ self.old) }
    {
        self.items.push(word)?;
        Ok(())
    }

    pub fn as_slice(&self) -> &[u32]
        ensures { result.now ≡ self.now }
    {
        self.items.as_slice()
    }
}

/// Bytes of memory or of the input, in order.
#[derive(Drop)]
pub struct Bytes {
    items: Vec<u8>,
}

impl Model for Bytes {
    ghost use Rattle.std.specs.Prelude.{List, ℕ};

    ghost Value = { List ℕ };

    ghost view = { λ bytes. bytes.items.items };
}

impl Bytes {
    ghost use Rattle.std.specs.Prelude.{◌≡◌, ◌<◌, ◌^◌, [], ◌∷◌, ◌++◌, All, OnOk, OnErr};

    pub fn new(alloc: Global) -> Bytes
        ensures { result ≡ [] }
    {
        Bytes {
            items: Vec::new(alloc),
        }
    }

    /// These bytes; no memory is taken.
    pub fn from_vec(items: Vec<u8>) -> Bytes
        ensures bytes { result ≡ items.items }
        ensures small { All (λ byte. byte < 2 ^ 8) result }
    {
        Bytes { items }
    }

    /// Gives the bytes back; no memory is taken.
    pub fn into_vec(self) -> Vec<u8>
        ensures { result.items ≡ self }
    {
        let Bytes { items } = self;
        items
    }

    /// One more byte at the end. Without memory the bytes stay.
    pub fn push(&mut self, byte: u8) -> Result<(), AllocError>
        ensures ok { OnOk result (self.new ≡ self.old ++ byte ∷ []) }
        ensures err { OnErr result (self.new ≡ self.old) }
    {
        self.items.push(byte)?;
        Ok(())
    }

    pub fn as_slice(&self) -> &[u8]
        ensures { result.now ≡ self.now }
    {
        self.items.as_slice()
    }
}

/// Which hart takes how many steps, turn by turn.
#[derive(Drop)]
pub enum Schedule {
    /// The live harts take turns of `q` steps, round and round; `q` is 1 to 65,535.
    Rr { q: u32 },
    /// These turns one after the other, and then turns of one step, round and round.
    List { items: Items },
    /// Turns of `q` steps, 1 to 65,535, of live harts that are drawn from the number `n`.
    Seed { n: u32, q: u32 },
}

/// A guest with its schedule.
#[derive(Drop)]
pub struct Job {
    /// 1 to 8.
    pub harts: u8,
    pub schedule: Schedule,
    /// How many steps are taken at most, 1 to 250,000.
    pub steps: u32,
    /// The text, from address 10000 hex on: 1 to 16,384 words.
    pub words: Words,
    /// What memory holds from address 100000 hex on: at most 262,144 bytes.
    pub data_bytes: Bytes,
    /// What the guest can read.
    pub input: Bytes,
    /// The address at which each hart begins.
    pub entries: [u32; 8],
}
