//! The capture, line by line: for each load and store the records that it conflicts with.
ghost use Rattle.std.specs.Prelude.{◌≡◌, ℕ, ◌+◌, ◌^◌, ◌<◌, ◌≤◌, [], ◌∷◌, ◌++◌, List, length, IfOk, OnErr, slice_index};
ghost use Rattle.pl_base.specs.declared.layout.TheConstants.{MAX_HARTS};
ghost use Rattle.pl_event.specs.declared.log.Line.{Line};
ghost use Rattle.pl_event.specs.Numbers.{hart_of};
ghost use Rattle.pl_event.specs.Runs.{IsBlockSize};

use log_clocks::LastAccesses;
use pl_base::NoMemory;
use pl_event::{Arcs, Line, Record, record_hart};
use std::alloc::Global;

/// The records of each hart, and the last accesses of each in each block, so far.
#[derive(Drop)]
pub struct Capture {
    records: [u32; 8],
    lasts: LastAccesses,
}

impl Capture {
    ghost use Rattle.arc_capture.specs.Capture.{AreCandidates, HasCaptured, HasSameLines, MayCapture};

    /// Of no line. A run has 1 to 8 harts, and a block 16 or 4 bytes.
    pub fn new(alloc: Global, harts: u8, block: u8) -> Result<Capture, NoMemory>
        requires harts { harts ≤ MAX_HARTS }
        requires block { IsBlockSize block }
        ensures { IfOk result (λ capture. HasCaptured capture block []) }
    {
        Ok(Capture {
            records: [0; 8],
            lasts: LastAccesses::new(alloc, block)?,
        })
    }

    // The records that the next line conflicts with by a block.
    fn candidates(&self, line: &Line) -> Arcs
        requires { (size : ℕ) × (lines : List Line) × MayCapture self.now size lines line.now }
        ensures { (size : ℕ) (lines : List Line) → MayCapture self.now size lines line.now →
            AreCandidates size lines line.now result }
    {
        match line.what {
            Record::Event(event) => self.lasts.candidates(&event),
            Record::Notice { hart: _, of: _ } => Arcs::none(),
        }
    }

    /// Takes the next line. For a load or a store the answer is for each other hart its last record so far that
    /// conflicts by a block: an access to the same block, where one of both is a store. For any other record there are
    /// none. Fewer than 16,000,000 lines were given before. Without memory the capture stays as it was.
    pub fn take(&mut self, line: &Line) -> Result<Arcs, NoMemory>
        requires { (size : ℕ) × (lines : List Line) × MayCapture self.old size lines line.now }
        ensures ok { (size : ℕ) (lines : List Line) → MayCapture self.old size lines line.now → IfOk result (λ found.
            AreCandidates size lines line.now found × HasCaptured self.new size (lines ++ line.now ∷ [])) }
        ensures err { OnErr result (HasSameLines self.old self.new) }
    {
        let found = self.candidates(line);
        let hart = record_hart(&line.what) as usize;
        let number = self.records[hart] + 1;
        self.lasts.pass(line, number)?;
        self.records[hart] = number;
        Ok(found)
    }
}
