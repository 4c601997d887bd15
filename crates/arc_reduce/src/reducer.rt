//! The reducer, line by line.
ghost use Rattle.std.specs.Prelude.{◌≡◌, ℕ, ◌+◌, ◌^◌, ◌<◌, ◌≤◌, [], List, length, IfOk, OnErr, IsTrue, false, Some, None, slice_index, slice_index_or};
ghost use Rattle.pl_base.specs.declared.layout.TheConstants.{MAX_HARTS};
ghost use Rattle.pl_event.specs.declared.log.Line.{Line};
ghost use Rattle.pl_event.specs.Edges.{no_arcs};
ghost use Rattle.pl_event.specs.Numbers.{hart_of};
ghost use Rattle.log_clocks.specs.Clocks.{slots};
ghost use Rattle.arc_reduce.specs.Reduction.{AreChosen, IsChosen, IsSpare};

use log_clocks::Clocks;
use pl_base::NoMemory;
use pl_event::{Arcs, Heads, Line, record_hart};
use std::alloc::Global;

/// The heads and the clocks of the lines taken so far, with all their candidates as arcs.
#[derive(Drop)]
pub struct Reducer {
    harts: u8,
    heads: Heads,
    clocks: Clocks,
}

impl Reducer {
    ghost use Rattle.arc_reduce.specs.Taken.{HasSameState, HasTaken, MayTake, next_number, with_line};

    /// No line is taken. A run has 1 to 8 harts.
    pub fn new(alloc: Global, harts: u8) -> Result<Reducer, NoMemory>
        requires { harts ≤ MAX_HARTS }
        ensures { IfOk result (λ reducer. (reducer.harts ≡ harts) × HasTaken reducer []) }
    {
        Ok(Reducer {
            harts,
            heads: Heads::new(),
            clocks: Clocks::new(alloc)?,
        })
    }

    // Whether the source of a candidate from hart u reaches the next line, of this hart, without the candidate. Mostly
    // the hart's own last record knows it, and no clock of another hart is looked at.
    fn is_spare(&self, line: &Line, hart: u8, candidates: &Arcs, u: u8, number: u32) -> bool
        requires u { u < MAX_HARTS }
        requires hart { hart ≡ hart_of line.now.what }
        requires taken { (full : List Line) × MayTake self.now full line.now candidates.now }
        requires candidate { slice_index_or candidates.now u None ≡ Some number }
        ensures yes { (full : List Line) → MayTake self.now full line.now candidates.now → IsTrue result →
            IsSpare (with_line full line.now candidates.now) u number hart (next_number full line.now) }
        ensures no { (full : List Line) → MayTake self.now full line.now candidates.now → result ≡ false →
            IsSpare (with_line full line.now candidates.now) u number hart (next_number full line.now) → ⊥ }
    {
        if self.clocks.last_entry(hart, u) >= number {
            return true;
        }
        let mut arcs = *candidates;
        arcs.set(u, None);
        let others = Line {
            what: line.what,
            arcs,
        };
        let needs = self.heads.needs(&others, hart);
        self.clocks.next_knows(hart, &needs, u, number)
    }

    // The candidate of the next line from hart u, if it is not spare.
    fn choice(&self, line: &Line, hart: u8, candidates: &Arcs, u: u8) -> Option<u32>
        requires u { u < MAX_HARTS }
        requires hart { hart ≡ hart_of line.now.what }
        requires taken { (full : List Line) × MayTake self.now full line.now candidates.now }
        ensures { (full : List Line) → MayTake self.now full line.now candidates.now →
            IsChosen (with_line full line.now candidates.now) u hart (next_number full line.now)
            (slice_index_or candidates.now u None) result }
    {
        match candidates.get(u) {
            None => None,
            Some(number) => {
                if self.is_spare(line, hart, candidates, u, number) {
                    None
                } else {
                    Some(number)
                }
            }
        }
    }

    // The candidates of the next line that are not spare.
    fn chosen(&self, line: &Line, hart: u8, candidates: &Arcs) -> Arcs
        requires hart { hart ≡ hart_of line.now.what }
        requires taken { (full : List Line) × MayTake self.now full line.now candidates.now }
        ensures { (full : List Line) → MayTake self.now full line.now candidates.now →
            AreChosen (with_line full line.now candidates.now) hart (next_number full line.now) candidates.now result }
    {
        let mut kept = Arcs::none();
        for u in 0..self.harts {
            kept.set(u, self.choice(line, hart, candidates, u));
        }
        kept
    }

    // Takes the next line with all its candidates.
    fn pass(&mut self, line: &Line, hart: u8, candidates: &Arcs) -> Result<(), NoMemory>
        requires hart { hart ≡ hart_of line.now.what }
        requires taken { (full : List Line) × MayTake self.old full line.now candidates.now }
        ensures ok { (full : List Line) → MayTake self.old full line.now candidates.now →
            IfOk result (λ _. HasTaken self.new (with_line full line.now candidates.now)) }
        ensures harts { self.new.harts ≡ self.old.harts }
        ensures err { OnErr result (HasSameState self.old self.new) }
    {
        let whole = Line {
            what: line.what,
            arcs: *candidates,
        };
        let needs = self.heads.needs(&whole, hart);
        self.clocks.next(hart, &needs)?;
        self.heads.pass(&whole);
        Ok(())
    }

    // Takes the next line, which has no candidates, mostly without a look at the other harts.
    fn pass_bare(&mut self, line: &Line, hart: u8) -> Result<(), NoMemory>
        requires hart { hart ≡ hart_of line.now.what }
        requires taken { (full : List Line) × MayTake self.old full line.now no_arcs }
        ensures ok { (full : List Line) → MayTake self.old full line.now no_arcs →
            IfOk result (λ _. HasTaken self.new (with_line full line.now no_arcs)) }
        ensures harts { self.new.harts ≡ self.old.harts }
        ensures err { OnErr result (HasSameState self.old self.new) }
    {
        if !self.heads.is_unnoticed(hart) {
            return self.pass(line, hart, &Arcs::none());
        }
        self.clocks.next_alone(hart)?;
        self.heads.pass(line);
        Ok(())
    }

    /// The candidates of the next line that its log keeps as arcs: all but those whose source reaches the line by a
    /// path that does not use them, where the line has its other candidates too. The line has no arcs, is of a hart of
    /// the run and breaks no rule of notices; a candidate is an earlier record of another hart, and fewer than
    /// 16,000,000 lines were taken. Without memory the reducer stays as it was.
    pub fn keep(&mut self, line: &Line, candidates: &Arcs) -> Result<Arcs, NoMemory>
        requires { (full : List Line) × MayTake self.old full line.now candidates.now }
        ensures ok { (full : List Line) → MayTake self.old full line.now candidates.now → IfOk result (λ kept.
            AreChosen (with_line full line.now candidates.now) (hart_of line.now.what) (next_number full line.now)
            candidates.now kept × HasTaken self.new (with_line full line.now candidates.now)) }
        ensures harts { self.new.harts ≡ self.old.harts }
        ensures err { OnErr result (HasSameState self.old self.new) }
    {
        let hart = record_hart(&line.what);
        let none = Arcs::none();
        if *candidates == none {
            self.pass_bare(line, hart)?;
            return Ok(none);
        }
        let kept = self.chosen(line, hart, candidates);
        self.pass(line, hart, candidates)?;
        Ok(kept)
    }
}
