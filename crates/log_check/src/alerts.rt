//! Which harts have missed an alert event, and which have had an access.
ghost use Rattle.std.specs.Prelude.{◌≡◌, ◌≢◌, ℕ, ◌+◌, ◌^◌, ◌<◌, ◌≤◌, List, slice_index, slice_index_or, IsTrue, false};
ghost use Rattle.pl_event.specs.declared.event.Event.{Event};
ghost use Rattle.pl_event.specs.declared.log.Line.{Line};
ghost use Rattle.pl_event.specs.Conflicts.{is_access, HasNotice, IsNoticed, IsPair, MeetByAlert};
ghost use Rattle.pl_event.specs.Edges.{IsFlow};
ghost use Rattle.pl_event.specs.Heads.{Tells, IsNext};
ghost use Rattle.pl_event.specs.Numbers.{hart_of};
ghost use Rattle.pl_event.specs.Records.{records_before, IsEvent};

use pl_event::{Event, Heads, Kind, Line, Record, is_alert};

pub(crate) fn is_access(kind: &Kind) -> bool
    ensures { result ≡ is_access kind.now }
{
    matches!(kind, Kind::Ld { .. } | Kind::St { .. })
}

/// Of each hart, whether some alert event of another hart has no notice in it, and whether it has had an access.
#[derive(Clone, Copy)]
pub(crate) struct AlertWatch {
    missed: [bool; 8],
    active: [bool; 8],
}

impl AlertWatch {
    ghost use Rattle.log_check.specs.inner.Watched.{IsWatched};

    pub(crate) fn new() -> AlertWatch
        ensures { (lines : List Line) → IsWatched result lines 0 }
    {
        AlertWatch {
            missed: [false; 8],
            active: [false; 8],
        }
    }

    // Whether some other hart has had an access and has no notice of the next record of this hart.
    fn lacks(&self, heads: &Heads, hart: u8) -> bool
        requires hart { hart < 8 }
        requires few { slice_index heads.now.records hart + 1 < 2 ^ 32 }
        ensures { result ≡ false → (harts : ℕ) (lines : List Line) (i : ℕ) (line : Line) →
            IsFlow harts lines → Tells heads.now lines i → IsNext lines i hart line →
            (u : ℕ) → u < 8 → u ≢ hart → IsTrue (slice_index_or self.now.active u false) →
            HasNotice lines u hart (records_before hart lines i + 1) }
    {
        for u in 0..8u8 {
            if u != hart && self.active[u as usize] && !heads.has_notice(hart, u) {
                return true;
            }
        }
        false
    }

    /// Whether the next event may conflict by an alert with one that is not ordered before it.
    #[inline(always)]
    pub(crate) fn suspects(&self, heads: &Heads, event: &Event) -> bool
        requires hart { event.now.hart < 8 }
        requires few { slice_index heads.now.records event.now.hart + 1 < 2 ^ 32 }
        ensures { result ≡ false → (harts : ℕ) (lines : List Line) (i m : ℕ) →
            IsFlow harts lines → harts ≤ 8 → Tells heads.now lines i → IsEvent lines i m event.now →
            IsWatched self.now lines i →
            (k : ℕ) (a : Event) (n : ℕ) → IsPair lines k i a n event.now m → MeetByAlert a.kind event.now.kind →
            IsNoticed lines a n event.now m }
    {
        let hart = event.hart;
        if is_alert(&event.kind) {
            self.missed[hart as usize] || self.lacks(heads, hart)
        } else {
            is_access(&event.kind) && self.missed[hart as usize]
        }
    }

    // Marks the harts that have no notice of the next record of this hart, an alert event.
    #[inline(never)]
    fn miss(&mut self, heads: &Heads, hart: u8)
        requires hart { hart < 8 }
        requires few { slice_index heads.now.records hart + 1 < 2 ^ 32 }
        ensures active { self.new.active ≡ self.old.active }
        ensures kept { (u : ℕ) → slice_index_or self.new.missed u false ≡ false →
            slice_index_or self.old.missed u false ≡ false }
        ensures missed { (u : ℕ) → u < 8 → slice_index_or self.new.missed u false ≡ false → u ≢ hart →
            (harts : ℕ) (lines : List Line) (i : ℕ) (line : Line) →
            IsFlow harts lines → Tells heads.now lines i → IsNext lines i hart line →
            HasNotice lines u hart (records_before hart lines i + 1) }
    {
        for u in 0..8u8 {
            if u != hart && !heads.has_notice(hart, u) {
                self.missed[u as usize] = true;
            }
        }
    }

    #[inline(always)]
    fn take(&mut self, heads: &Heads, event: &Event)
        requires hart { event.now.hart < 8 }
        requires few { slice_index heads.now.records event.now.hart + 1 < 2 ^ 32 }
        ensures { (harts : ℕ) (lines : List Line) (i m : ℕ) →
            IsFlow harts lines → Tells heads.now lines i → IsEvent lines i m event.now → IsWatched self.old lines i →
            IsWatched self.new lines (i + 1) }
    {
        if is_alert(&event.kind) {
            self.miss(heads, event.hart);
        } else if is_access(&event.kind) {
            self.active[event.hart as usize] = true;
        }
    }

    /// Takes the next line.
    #[inline(always)]
    pub(crate) fn pass(&mut self, heads: &Heads, line: &Line)
        requires hart { hart_of line.now.what < 8 }
        requires few { slice_index heads.now.records (hart_of line.now.what) + 1 < 2 ^ 32 }
        ensures { (harts : ℕ) (lines : List Line) (i : ℕ) →
            IsFlow harts lines → Tells heads.now lines i → IsNext lines i (hart_of line.now.what) line.now →
            IsWatched self.old lines i → IsWatched self.new lines (i + 1) }
    {
        match line.what {
            Record::Event(event) => self.take(heads, &event),
            Record::Notice { hart: _, of: _ } => {}
        }
    }
}
