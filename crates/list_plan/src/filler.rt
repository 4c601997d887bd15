//! The words of a table, and the operations that are made on them.
ghost use Rattle.list_plan.specs.inner.Tables.{IsTable};

use order_core::Op;
use pl_base::NoMemory;
use std::alloc::Global;

/// The words of the table, and the operations so far.
#[derive(Drop)]
pub(crate) struct Filler {
    pub(crate) words: Vec<u64>,
    pub(crate) operations: Vec<Op>,
    ghost table: { IsTable words.items },
}

impl Filler {
    ghost use Rattle.std.specs.Prelude.{◌≡◌, ℕ, ◌<◌, [], ◌∷◌, IfOk, OnOk, slice_index};
    ghost use Rattle.shadow_frames.specs.declared.words.TheConstants.{TABLE_WORDS};
    ghost use Rattle.shadow_frames.specs.Frames.{reads_lanes, writes_lanes};
    ghost use Rattle.shadow_layout.specs.Operations.{only};
    ghost use Rattle.list_plan.specs.inner.Fills.{Fills, words_of};
    ghost use Rattle.list_plan.specs.inner.Tables.{MayHold};

    // These words, and no operation.
    pub(crate) fn new(alloc: Global, words: Vec<u64>) -> Filler
        requires { IsTable words.items }
        ensures words { words_of result ≡ slice_index words.items }
        ensures operations { result.operations.items ≡ [] }
    {
        Filler {
            words,
            operations: Vec::new(alloc),
        }
    }

    // The operations so far; after it there are none.
    pub(crate) fn take(&mut self, alloc: Global) -> Vec<Op>
        ensures taken { result.items ≡ self.old.operations.items }
        ensures none { self.new.operations.items ≡ [] }
        ensures words { words_of self.new ≡ words_of self.old }
    {
        std::mem::replace(&mut self.operations, Vec::new(alloc))
    }

    // A word.
    pub(crate) fn word(&self, word: u32) -> u64
        requires { word < TABLE_WORDS }
        ensures { result ≡ words_of self.now word }
    {
        self.words[word as usize]
    }

    // Reads a word, and adds that read.
    pub(crate) fn read(&mut self, word: u32, lanes: u8, check: bool) -> Result<u64, NoMemory>
        requires { word < TABLE_WORDS }
        ensures fills { OnOk result (Fills self.old self.new (reads_lanes check lanes word ∷ [])) }
        ensures value { IfOk result (λ value. value ≡ words_of self.old word) }
    {
        let value = self.words[word as usize];
        self.operations.push(Op {
            word,
            lanes,
            write: false,
            check,
            value,
        })?;
        Ok(value)
    }

    // Adds a read where it is wanted.
    pub(crate) fn read_if(
        &mut self,
        wanted: bool,
        word: u32,
        lanes: u8,
        check: bool,
    ) -> Result<(), NoMemory>
        requires { word < TABLE_WORDS }
        ensures { OnOk result (Fills self.old self.new (only wanted (reads_lanes check lanes word ∷ []))) }
    {
        if !wanted {
            return Ok(());
        }
        self.read(word, lanes, check)?;
        Ok(())
    }

    // Writes a word, and adds that write.
    pub(crate) fn write(&mut self, word: u32, lanes: u8, value: u64) -> Result<(), NoMemory>
        requires { MayHold word value }
        ensures { OnOk result ((change : ℕ → ℕ) → change (words_of self.old word) ≡ value
            → Fills self.old self.new (writes_lanes lanes word change ∷ [])) }
    {
        self.operations.push(Op {
            word,
            lanes,
            write: true,
            check: false,
            value,
        })?;
        self.words[word as usize] = value;
        Ok(())
    }
}
