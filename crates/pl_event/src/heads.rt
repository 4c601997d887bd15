//! How far each hart of a log is, line by line.
ghost use Rattle.std.specs.Prelude.{◌≡◌, ◌↔◌, ℕ, ◌+◌, ◌^◌, ◌<◌, ◌≤◌, ◌⊎◌, List, slice_index, slice_index_or, IsTrue, None, Some, false};
ghost use Rattle.pl_event.specs.declared.log.Line.{Line};
ghost use Rattle.pl_event.specs.Conflicts.{HasNotice};
ghost use Rattle.pl_event.specs.Numbers.{hart_of};
ghost use Rattle.pl_event.specs.Records.{records_before};
ghost use Rattle.pl_event.specs.Edges.{IsNotice, IsAfter, IsFlow};
ghost use Rattle.pl_event.specs.Needs.{IsMost, need_of, needs_of};
ghost use Rattle.pl_event.specs.Feeds.{fed_at};
ghost use Rattle.pl_event.specs.inner.Later.{later};

use crate::fed::Fed;
use crate::log::{Arcs, Line, Point, Record};
use crate::streams::record_hart;

/// How far each hart of a log is: its records and events so far, and the notice that is its last record.
///
/// Each clause speaks of every log whose lines so far these are, so one value serves a log that is read, a log that is
/// recorded and a log of which only a prefix is known.
#[derive(Drop)]
pub struct Heads {
    place: u32,
    events: [u32; 8],
    records: [u32; 8],
    // the notice that is a hart's last record
    notices: [Option<Point>; 8],
    // the greatest number of a hart's record that a notice has named
    awaited: [u32; 8],
}

// The greater of two numbers that may be missing.
fn later(a: Option<u32>, b: Option<u32>) -> Option<u32>
    ensures { result ≡ later a b }
{
    match a {
        None => b,
        Some(x) => match b {
            None => a,
            Some(y) => Some(x.max(y)),
        },
    }
}

impl Heads {
    ghost use Rattle.pl_event.specs.Heads.{Tells, IsNext};

    /// Before the first line.
    pub fn new() -> Heads
        ensures { (lines : List Line) → Tells result lines 0 }
    {
        Heads {
            place: 0,
            events: [0; 8],
            records: [0; 8],
            notices: [None; 8],
            awaited: [0; 8],
        }
    }

    // The last record of hart u, if it is a notice of the next record of this hart.
    #[inline(always)]
    fn notice(&self, hart: u8, u: u8) -> Option<u32>
        requires hart { hart < 8 }
        requires u { u < 8 }
        requires few { slice_index self.now.records hart + 1 < 2 ^ 32 }
        ensures { (harts : ℕ) (lines : List Line) (i : ℕ) (line : Line) →
            IsFlow harts lines → Tells self.now lines i → IsNext lines i hart line →
            IsMost (λ n. IsNotice lines u n hart (records_before hart lines i + 1)) result }
    {
        match self.notices[u as usize] {
            None => None,
            Some(of) => {
                if of.hart == hart && of.number == self.records[hart as usize] + 1 {
                    Some(self.records[u as usize])
                } else {
                    None
                }
            }
        }
    }

    /// Whether hart u has a notice of the next record of this hart.
    #[inline(always)]
    pub fn has_notice(&self, hart: u8, u: u8) -> bool
        requires hart { hart < 8 }
        requires u { u < 8 }
        requires few { slice_index self.now.records hart + 1 < 2 ^ 32 }
        ensures { (harts : ℕ) (lines : List Line) (i : ℕ) (line : Line) →
            IsFlow harts lines → Tells self.now lines i → IsNext lines i hart line →
            IsTrue result ↔ HasNotice lines u hart (records_before hart lines i + 1) }
    {
        self.notice(hart, u).is_some()
    }

    // The record of hart u whose notice is the last record of this hart.
    #[inline(always)]
    fn noticed(&self, hart: u8, u: u8) -> Option<u32>
        requires hart { hart < 8 }
        requires u { u < 8 }
        ensures { (harts : ℕ) (lines : List Line) (i : ℕ) (line : Line) →
            IsFlow harts lines → Tells self.now lines i → IsNext lines i hart line →
            IsMost (λ n. IsAfter lines u n hart (records_before hart lines i + 1)) result }
    {
        match self.notices[hart as usize] {
            None => None,
            Some(of) => { if of.hart == u { Some(of.number) } else { None } }
        }
    }

    // Whether a notice may have named the next record, of this hart.
    #[inline(always)]
    fn may_be_named(&self, hart: u8) -> bool
        requires { hart < 8 }
        ensures { result ≡ false → slice_index self.now.awaited hart ≤ slice_index self.now.records hart }
    {
        self.awaited[hart as usize] > self.records[hart as usize]
    }

    /// Whether no notice bears on the next record, of this hart: its hart's last record is no notice, and no hart has a
    /// notice of it.
    #[inline(always)]
    pub fn is_unnoticed(&self, hart: u8) -> bool
        requires hart { hart < 8 }
        requires few { slice_index self.now.records hart + 1 < 2 ^ 32 }
        ensures yes { IsTrue result → (harts : ℕ) (lines : List Line) (i : ℕ) (line : Line) →
            IsFlow harts lines → Tells self.now lines i → IsNext lines i hart line → (u n : ℕ) → u < 8 →
            (IsNotice lines u n hart (records_before hart lines i + 1)
            ⊎ IsAfter lines u n hart (records_before hart lines i + 1)) → ⊥ }
        ensures no { result ≡ false → (harts : ℕ) (lines : List Line) (i : ℕ) (line : Line) →
            IsFlow harts lines → Tells self.now lines i → IsNext lines i hart line → (u : ℕ) × (n : ℕ) ×
            (IsNotice lines u n hart (records_before hart lines i + 1)
            ⊎ IsAfter lines u n hart (records_before hart lines i + 1)) }
    {
        if !self.may_be_named(hart) && self.notices[hart as usize].is_none() {
            return true;
        }
        for u in 0..8u8 {
            if self.notice(hart, u).is_some() {
                return false;
            }
            if self.noticed(hart, u).is_some() {
                return false;
            }
        }
        true
    }

    // What the next line, of this hart, needs of hart u.
    fn need(&self, line: &Line, hart: u8, u: u8) -> Option<u32>
        requires hart { hart < 8 }
        requires u { u < 8 }
        requires few { slice_index self.now.records hart + 1 < 2 ^ 32 }
        ensures { (harts : ℕ) (lines : List Line) (i : ℕ) →
            IsFlow harts lines → Tells self.now lines i → IsNext lines i hart line.now →
            result ≡ need_of lines u hart (records_before hart lines i + 1) }
    {
        later(
            line.arcs.get(u),
            later(self.notice(hart, u), self.noticed(hart, u)),
        )
    }

    // The same of each hart.
    #[inline(never)]
    fn needs_of_all(&self, line: &Line, hart: u8) -> Arcs
        requires hart { hart < 8 }
        requires few { slice_index self.now.records hart + 1 < 2 ^ 32 }
        ensures { (harts : ℕ) (lines : List Line) (i : ℕ) →
            IsFlow harts lines → Tells self.now lines i → IsNext lines i hart line.now →
            result ≡ needs_of lines hart (records_before hart lines i + 1) }
    {
        let mut needs = Arcs::none();
        for u in 0..8u8 {
            needs.set(u, self.need(line, hart, u));
        }
        needs
    }

    // What the next line, of this hart, needs of each hart, where no notice names it and it comes after this one.
    fn needs_after(&self, line: &Line, hart: u8, of: Point) -> Arcs
        requires hart { hart < 8 }
        requires of { slice_index_or self.now.notices hart None ≡ Some of }
        requires named { slice_index self.now.awaited hart ≤ slice_index self.now.records hart }
        ensures { (harts : ℕ) (lines : List Line) (i : ℕ) →
            IsFlow harts lines → Tells self.now lines i → IsNext lines i hart line.now →
            result ≡ needs_of lines hart (records_before hart lines i + 1) }
    {
        let mut needs = line.arcs.eight();
        if of.hart < 8 {
            let number = later(needs.get(of.hart), Some(of.number));
            needs.set(of.hart, number);
        }
        needs
    }

    /// What the next line, of this hart, needs of each hart.
    #[inline]
    pub fn needs(&self, line: &Line, hart: u8) -> Arcs
        requires hart { hart < 8 }
        requires few { slice_index self.now.records hart + 1 < 2 ^ 32 }
        ensures { (harts : ℕ) (lines : List Line) (i : ℕ) →
            IsFlow harts lines → Tells self.now lines i → IsNext lines i hart line.now →
            result ≡ needs_of lines hart (records_before hart lines i + 1) }
    {
        if self.may_be_named(hart) {
            return self.needs_of_all(line, hart);
        }
        match self.notices[hart as usize] {
            None => line.arcs.eight(),
            Some(of) => self.needs_after(line, hart, of),
        }
    }

    /// The next line as a worker takes it.
    pub fn fed(&self, line: &Line) -> Fed
        requires hart { hart_of line.now.what < 8 }
        requires records { slice_index self.now.records (hart_of line.now.what) + 1 < 2 ^ 32 }
        requires place { self.now.place + 1 < 2 ^ 32 }
        requires events { slice_index self.now.events (hart_of line.now.what) + 1 < 2 ^ 32 }
        ensures { (harts : ℕ) (lines : List Line) (i : ℕ) →
            IsFlow harts lines → Tells self.now lines i → IsNext lines i (hart_of line.now.what) line.now →
            result ≡ fed_at lines i line.now }
    {
        let hart = record_hart(&line.what);
        let needs = self.needs(line, hart);
        match line.what {
            Record::Event(_) => Fed {
                place: self.place + 1,
                event_number: self.events[hart as usize] + 1,
                line: *line,
                needs,
            },
            Record::Notice { .. } => Fed {
                place: 0,
                event_number: 0,
                line: *line,
                needs,
            },
        }
    }

    // A notice of this record is taken.
    #[inline(always)]
    fn name(&mut self, of: Point)
        ensures others { self.new ≡ record self.old { awaited = self.new.awaited } }
        ensures kept { (h : ℕ) → slice_index self.old.awaited h ≤ slice_index self.new.awaited h }
        ensures named { of.hart < 8 → of.number ≤ slice_index self.new.awaited of.hart }
    {
        if of.hart < 8 {
            let at = of.hart as usize;
            self.awaited[at] = self.awaited[at].max(of.number);
        }
    }

    /// Takes the next line.
    #[inline(always)]
    pub fn pass(&mut self, line: &Line)
        requires hart { hart_of line.now.what < 8 }
        requires records { slice_index self.old.records (hart_of line.now.what) + 1 < 2 ^ 32 }
        requires place { self.old.place + 1 < 2 ^ 32 }
        requires events { slice_index self.old.events (hart_of line.now.what) + 1 < 2 ^ 32 }
        ensures { (harts : ℕ) (lines : List Line) (i : ℕ) →
            IsFlow harts lines → Tells self.old lines i → IsNext lines i (hart_of line.now.what) line.now →
            Tells self.new lines (i + 1) }
    {
        let hart = record_hart(&line.what);
        let at = hart as usize;
        self.records[at] += 1;
        match line.what {
            Record::Event(_) => {
                self.place += 1;
                self.events[at] += 1;
                self.notices[at] = None;
            }
            Record::Notice { hart: _, of } => {
                self.notices[at] = Some(of);
                self.name(of);
            }
        }
    }
}
