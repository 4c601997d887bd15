//! The earliest event that conflicts with a later one and is not ordered before it.
ghost use Rattle.std.specs.Prelude.{◌≡◌, ◌↔◌, ℕ, ◌+◌, ◌^◌, ◌<◌, List, length, slice_index, IsTrue, MatchOption, false};
ghost use Rattle.pl_event.specs.declared.event.Event.{Event};
ghost use Rattle.pl_event.specs.declared.log.Line.{Line};
ghost use Rattle.pl_event.specs.Conflicts.{access_of, IsNoticed, IsPair, MeetByAlert, ShareBlock};
ghost use Rattle.pl_event.specs.Edges.{Into};
ghost use Rattle.pl_event.specs.Graph.{Path};
ghost use Rattle.pl_event.specs.Heads.{Tells};
ghost use Rattle.pl_event.specs.Records.{IsRecord};
ghost use Rattle.pl_event.specs.Unordered.{IsUnordered, IsOrderedPair};
ghost use Rattle.log_clocks.specs.Clocks.{time};
ghost use Rattle.log_check.specs.inner.Partners.{FindsPartner, IsEarlier, IsLater, IsSought};
ghost use Rattle.log_check.specs.inner.Traced.{IsOutline};

use crate::conflicts::{meet_by_alert, share_block};
use crate::trace::{Outline, Part, Trace, has};
use log_clocks::Clock;
use pl_event::{Event, Heads, Point};

/// An event with its clock, in a log with blocks of so many bytes.
#[derive(Clone, Copy)]
pub(crate) struct Later {
    pub(crate) size: u8,
    pub(crate) event: Event,
    pub(crate) clock: Clock,
}

impl Later {
    // Whether an earlier event, of this hart and with this part and number, shares a block and is not known to the
    // clock.
    fn overlooks(&self, hart: u8, part: Part, number: u32) -> bool
        requires size { 0 < self.now.size }
        requires hart { hart < 8 }
        ensures yes { (harts : ℕ) (lines : List Line) (x at m : ℕ) (a : Event) →
            IsLater harts lines at self.now.event m (time self.now.clock) →
            IsEarlier lines x at hart number part a self.now.event m →
            IsTrue result → IsUnordered self.now.size lines a number self.now.event m }
        ensures no { (harts : ℕ) (lines : List Line) (x at m : ℕ) (a : Event) →
            IsLater harts lines at self.now.event m (time self.now.clock) →
            IsEarlier lines x at hart number part a self.now.event m →
            result ≡ false →
            ShareBlock (access_of self.now.size a.kind) (access_of self.now.size self.now.event.kind) →
            Path (Into lines) a.hart number self.now.event.hart m }
    {
        number > self.clock.get(hart) && share_block(self.size, part, &self.event.kind)
    }

    // Whether this event's hart has the notice of an earlier alert event, or else the earlier event's hart has that of
    // this one. `now` are the heads before this one.
    fn is_noticed(&self, hart: u8, part: Part, now: &Heads) -> bool
        requires hart { hart < 8 }
        requires later { self.now.event.hart < 8 }
        requires room { slice_index now.now.records self.now.event.hart + 1 < 2 ^ 32 }
        ensures { (harts : ℕ) (lines : List Line) (x at n m : ℕ) (a : Event) →
            IsLater harts lines at self.now.event m (time self.now.clock) →
            IsEarlier lines x at hart n part a self.now.event m → Tells now.now lines at →
            IsTrue result ↔ IsNoticed lines a n self.now.event m }
    {
        match part {
            Part::Alert(harts) => has(harts, self.event.hart),
            _ => now.has_notice(self.event.hart, hart),
        }
    }

    // Whether an earlier event of another hart conflicts and is not ordered before this one.
    fn is_unordered(&self, hart: u8, part: Part, number: u32, now: &Heads) -> bool
        requires size { 0 < self.now.size }
        requires hart { hart < 8 }
        requires later { self.now.event.hart < 8 }
        requires room { slice_index now.now.records self.now.event.hart + 1 < 2 ^ 32 }
        ensures yes { (harts : ℕ) (lines : List Line) (x at m : ℕ) (a : Event) →
            IsLater harts lines at self.now.event m (time self.now.clock) →
            IsEarlier lines x at hart number part a self.now.event m → Tells now.now lines at →
            IsTrue result → IsUnordered self.now.size lines a number self.now.event m }
        ensures no { (harts : ℕ) (lines : List Line) (x at m : ℕ) (a : Event) →
            IsLater harts lines at self.now.event m (time self.now.clock) →
            IsEarlier lines x at hart number part a self.now.event m → Tells now.now lines at →
            result ≡ false → IsOrderedPair self.now.size lines a number self.now.event m }
    {
        if self.overlooks(hart, part, number) {
            return true;
        }
        meet_by_alert(part, &self.event.kind) && !self.is_noticed(hart, part, now)
    }

    // The same, of a line.
    fn has_partner(&self, outline: Outline, number: u32, now: &Heads) -> bool
        requires size { 0 < self.now.size }
        requires hart { outline.hart < 8 }
        requires later { self.now.event.hart < 8 }
        requires room { slice_index now.now.records self.now.event.hart + 1 < 2 ^ 32 }
        ensures yes { (harts : ℕ) (lines : List Line) (x at m : ℕ) (line : Line) →
            IsLater harts lines at self.now.event m (time self.now.clock) → x < at →
            IsRecord lines x outline.hart number line → IsOutline lines number line.what outline →
            Tells now.now lines at → IsTrue result →
            (a : Event) × IsPair lines x at a number self.now.event m × (a.hart ≡ outline.hart)
            × IsUnordered self.now.size lines a number self.now.event m }
        ensures no { (harts : ℕ) (lines : List Line) (x at m : ℕ) (line : Line) →
            IsLater harts lines at self.now.event m (time self.now.clock) → x < at →
            IsRecord lines x outline.hart number line → IsOutline lines number line.what outline →
            Tells now.now lines at → result ≡ false →
            (a : Event) (n : ℕ) → IsPair lines x at a n self.now.event m →
            IsOrderedPair self.now.size lines a n self.now.event m }
    {
        match outline.part {
            Part::Other => false,
            _ => outline.hart != self.event.hart
                && self.is_unordered(outline.hart, outline.part, number, now),
        }
    }

    /// The earliest event that conflicts with this one, which follows the lines of the trace, and is not ordered before
    /// it. `now` are the heads before this one.
    #[inline(never)]
    pub(crate) fn earliest_partner(&self, trace: &Trace, now: &Heads) -> Option<Point>
        requires few { length trace.now < 2 ^ 32 }
        requires size { 0 < self.now.size }
        requires later { self.now.event.hart < 8 }
        requires room { slice_index now.now.records self.now.event.hart + 1 < 2 ^ 32 }
        ensures { (harts : ℕ) (lines : List Line) (m : ℕ) →
            IsSought trace.now now.now harts lines self.now.event m (time self.now.clock) →
            FindsPartner self.now.size lines (length trace.now) result }
    {
        let mut numbers = [0u32; 8];
        for x in 0..trace.len() {
            let outline = trace.get(x);
            let hart = outline.hart;
            numbers[hart as usize] += 1;
            let number = numbers[hart as usize];
            if self.has_partner(outline, number, now) {
                return Some(Point { hart, number });
            }
        }
        None
    }
}
