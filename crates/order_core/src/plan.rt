//! What harts do to the words of a table, as a trait without values and one with them.
ghost use Rattle.std.specs.Prelude.{◌≡◌, ◌<◌, ◌≤◌, slice_get};

use crate::course::Op;
use pl_event::Arcs;

/// What harts do to the words of a table, record by record. It cannot be run: who holds one learns no value from it.
pub trait Plan {
    ghost use Rattle.order_core.specs.Course.{Planned, course};
    ghost use Rattle.order_core.specs.Lawful.{IsLawful};

    /// The log of the run, the words of the table at its start, and the operations of each record, with the values of
    /// the sequential run from these words.
    ghost planned: { Self → Planned };

    /// How many harts the run has.
    fn harts(&self) -> u8
        ensures { result ≡ (planned self.now).log.harts };

    /// How many bytes a block has by which the run's accesses are ordered.
    fn block(&self) -> u8
        ensures { result ≡ (planned self.now).log.block };

    /// The plan is lawful.
    ghost lawful: { (x : Self) → ∥ IsLawful (course planned x) ∥₁ };
}

/// A plan whose records, operations and words can be asked for.
pub trait PlanOps: Plan {
    ghost use Rattle.pl_event.specs.Needs.{needs_of};
    ghost use Rattle.order_core.specs.Course.{course, length_of};
    ghost use Rattle.order_core.specs.FedCore.{hart_at};

    /// How many records a hart of the run has.
    fn len(&self, hart: u8) -> u32
        requires { hart < (Self.planned self.now).log.harts }
        ensures { result ≡ length_of (course Self.planned self.now) hart };

    /// Operation `i`, from 0, of a hart's record; none where it has no more.
    fn op(&self, hart: u8, number: u32, i: u32) -> Option<Op>
        requires hart { hart < (Self.planned self.now).log.harts }
        requires from_one { 1 ≤ number }
        requires number { number ≤ length_of (course Self.planned self.now) hart }
        ensures { result ≡ slice_get ((Self.planned self.now).operations hart number) i };

    /// What a hart's record needs of the other harts.
    fn needs(&self, hart: u8, number: u32) -> Arcs
        requires hart { hart < (Self.planned self.now).log.harts }
        requires from_one { 1 ≤ number }
        requires number { number ≤ length_of (course Self.planned self.now) hart }
        ensures { result ≡ needs_of (Self.planned self.now).log.lines hart number };

    /// The hart of the log's line `i` in executed order, counted from 0, notices included; none where the log has no
    /// such line.
    fn line_hart(&self, i: u32) -> Option<u8>
        ensures { result ≡ hart_at (Self.planned self.now).log.lines i };

    /// The opening word of a number; none where the table has no such word.
    fn opening(&self, word: u32) -> Option<u64>
        ensures { result ≡ slice_get (Self.planned self.now).opening word };
}
