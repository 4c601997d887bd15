//! The worker of one hart.
use guard_table::{GuardSeat, Monitor, Note};
use lifeguard::{Lifeguard, Report};
use order_core::Plan;
use pl_base::{NoMemory, Steps};
use pl_event::Fed;
use std::sync::ledger::Ledger;

/// What a worker found on its hart.
#[derive(Drop)]
pub struct HartResult {
    pub hart: u8,
    /// The hart's reports, in order.
    pub reports: Vec<Report>,
    /// The masks of registers 0 to 33 after the last record.
    pub masks: [u8; 34],
    /// How many checks of accesses its records have.
    pub checks: u64,
    /// How many of them were misses.
    pub misses: u64,
}

/// How a turn ended.
#[derive(Clone, Copy, Debug, PartialEq, Eq)]
pub enum Turn {
    /// All records that were asked for were taken.
    Moved,
    /// The next record needs record `need` of the hart, whose progress word was loaded in this turn and gave `seen`.
    Waiting { hart: u8, need: u32, seen: u64 },
    /// All fed records are taken, and more may be fed.
    Dry,
    /// All records of the stream are taken.
    Done,
    /// No memory was left for reports; nothing of the next record was done.
    NoMemory,
}

/// No memory was left for these records, which were not taken in.
#[derive(Drop)]
pub struct FeedRefused {
    pub fed: Vec<Fed>,
}

/// The worker of one hart.
pub trait TurnWorker: Drop {
    ghost use Rattle.std.specs.Prelude.{◌≡◌, ◌+◌, ◌≤◌, OnOk, OnErr, IfErr, true};
    ghost use Rattle.guard_table.specs.Seats.{seat_view, note_view, plan_of, IsNoteOf};
    ghost use Rattle.guard_table.specs.Views.{told_by, learnt_from};
    ghost use Rattle.turn_worker.specs.Workers.{WorkerView, IsSound, IsAt, IsOfTable, IsNextFed, has_fed, IsWhole};
    ghost use Rattle.turn_worker.specs.Workers.{HasSpare};
    ghost use Rattle.turn_worker.specs.Turns.{IsLaterBy, IsAnswer, HasEnded};
    ghost use Rattle.turn_worker.specs.Results.{IsResult};

    type Guard: Lifeguard;

    /// Its lifeguard.
    ghost guard: { Self → Self.Guard };

    /// All that contracts see of it.
    ghost view: { Self → WorkerView };

    /// The hart whose records it takes.
    fn hart(&self) -> u8
        ensures { result ≡ (view self.now).seat.hart };

    /// Makes room for so many reports.
    fn reserve(&mut self, spare: u32) -> Result<(), NoMemory>
        ensures same { HasSpare (view self.old) (view self.new) }
        ensures room { OnOk result (spare ≤ (view self.new).spare) };

    /// Takes in the next records of the hart's stream. Without memory the list is handed back, and nothing is changed.
    fn feed(&mut self, fed: Vec<Fed>) -> Result<(), FeedRefused>
        requires { IsNextFed (view self.old) fed.items }
        ensures ok { OnOk result (view self.new ≡ has_fed fed.items (view self.old)) }
        ensures same { OnErr result (view self.new ≡ view self.old) }
        ensures back { IfErr result (λ refused. refused.fed ≡ fed) };

    /// Says that the stream has ended, which was fed whole.
    fn no_more(&mut self)
        requires { IsWhole (view self.old) }
        ensures { view self.new ≡ record (view self.old) { ended = true } };

    /// A note of the worker's hart and its progress word.
    fn note<P: Plan>(&mut self, monitor: &Monitor<P>) -> Note
        requires { IsAt P.planned monitor.now (view self.old) }
        ensures same { view self.new ≡ view self.old }
        ensures note_of { IsNoteOf P.planned monitor.now result }
        ensures note { note_view result ≡ told_by (view self.old).seat };

    /// The worker learns what the note tells of its hart.
    fn learn<P: Plan>(&mut self, monitor: &Monitor<P>, note: Note)
        requires of { IsAt P.planned monitor.now (view self.old) }
        requires note { IsNoteOf P.planned monitor.now note }
        ensures { let v = view self.old in
            view self.new ≡ record v { seat = learnt_from (note_view note) v.seat } };

    /// Takes the next records, at most so many.
    fn turn<P: Plan, L: Ledger>(
        &mut self,
        monitor: &Monitor<P>,
        records: u32,
        steps: &mut Steps<L>,
    ) -> Turn
        requires of { IsAt P.planned monitor.now (view self.old) }
        requires plan { P.planned (plan_of monitor.now) ≡ (view self.old).plan }
        requires some { 1 ≤ records }
        ensures later { IsLaterBy records (view self.old) (view self.new) }
        ensures answer { IsAnswer records (view self.old) (view self.new) result }
        ensures steps { let v = view self.old in
            steps.new + v.steps v.taken ≡ steps.old + v.steps (view self.new).taken };

    /// What it found, and its seat, once all records of the stream are taken.
    fn end(self) -> (HartResult, GuardSeat)
        requires { HasEnded (view self) }
        ensures result { IsResult (view self) result.0 }
        ensures seat { seat_view result.1 ≡ (view self).seat }
        ensures table { IsOfTable (view self).table result.1 };

    /// What it says of itself is true, and its seat is of a lawful run.
    ghost sound: { (w : Self) → IsSound (view w) };

    /// It follows the rules of its lifeguard.
    ghost follows: { (w : Self) → (view w).rules ≡ Self.Guard.rules (guard w) };
}
