//! A turn of one record.
ghost use Rattle.std.specs.Prelude.{◌≡◌, ℕ, ◌+◌, ◌≤◌};
ghost use Rattle.pl_event.specs.declared.log.Line.{Line};
ghost use Rattle.pl_event.specs.Feeds.{fed_at};
ghost use Rattle.pl_event.specs.Records.{IsRecord};
ghost use Rattle.guard_table.specs.Seats.{plan_of, seat_view};
ghost use Rattle.turn_worker.specs.Turns.{IsAnswer, IsLaterBy};
ghost use Rattle.turn_worker.specs.Workers as workers;
ghost use Rattle.worker_laws.specs.Folds.{steps_at};
ghost use Rattle.worker_records.specs.Accesses.{HasWritten};
ghost use Rattle.worker_records.specs.Places.{IsAt, run_at};
ghost use Rattle.worker_records.specs.States.{IsKept, IsReady, spare};
ghost use Rattle.lifeguard_worker.specs.Rows.{entry_of};

use crate::needs::short_of;
use crate::progress::{keep_up, tell_all};
use crate::rows::Entry;
use crate::worker::Worker;
use guard_table::{GuardSeat, Monitor};
use lifeguard::{EventPlace, Lifeguard};
use order_core::Plan;
use pl_base::Steps;
use pl_event::Record;
use std::sync::ledger::Ledger;
use turn_worker::{Turn, TurnWorker};
use worker_records::State;

/// How many reports a record makes, at most.
const MAX_REPORTS: usize = 3;

// Takes a record, whose needs were seen and for whose reports there is room.
fn take_record<P: Plan, L: Lifeguard, K: Ledger>(
    monitor: &Monitor<P>,
    seat: &mut GuardSeat,
    guard: L,
    state: &mut State,
    entry: Entry,
    steps: &mut Steps<K>,
)
    requires at { IsAt P.planned monitor.now (L.rules guard) seat.old }
    requires ready { IsReady (L.rules guard) (seat_view seat.old) state.old }
    requires fed { let v = seat_view seat.old in let lines = v.course.log.lines in
        (i : ℕ) × (line : Line) × IsRecord lines i v.hart (state.old.taken + 1) line
        × (entry ≡ entry_of (fed_at lines i line)) }
    requires room { 3 ≤ spare state.old }
    ensures at { IsAt P.planned monitor.now (L.rules guard) seat.new }
    ensures view { HasWritten (seat_view seat.old) (seat_view seat.new) }
    ensures kept { IsKept (L.rules guard) (seat_view seat.new) state.new }
    ensures taken { state.new.taken ≡ state.old.taken + 1 }
    ensures spare { spare state.old ≤ spare state.new + 3 }
    ensures steps { let v = seat_view seat.old in let p = run_at (L.rules guard) v in
        steps.new + steps_at p v.hart state.old.taken ≡ steps.old + steps_at p v.hart (state.old.taken + 1) }
{
    match entry.what {
        Record::Notice { hart: _, of: _ } => state.take_notice(monitor, seat, guard),
        Record::Event(event) => {
            let at = EventPlace {
                place: entry.place,
                hart: event.hart,
                number: entry.event_number,
            };
            state.take_event(monitor, seat, guard, at, event.kind, steps)
        }
    }
}

impl<L: Lifeguard> Worker<L> {
    /// Takes the next record, if it may.
    pub(crate) fn turn_one<P: Plan, K: Ledger>(
        &mut self,
        monitor: &Monitor<P>,
        steps: &mut Steps<K>,
    ) -> Turn
        requires of { workers.IsAt P.planned monitor.now (⟦<Worker<L> as TurnWorker>⟧.view self.old) }
        requires plan { P.planned (plan_of monitor.now) ≡ (⟦<Worker<L> as TurnWorker>⟧.view self.old).plan }
        ensures later { let view = ⟦<Worker<L> as TurnWorker>⟧.view in IsLaterBy 1 (view self.old) (view self.new) }
        ensures answer { let view = ⟦<Worker<L> as TurnWorker>⟧.view in
            IsAnswer 1 (view self.old) (view self.new) result }
        ensures steps { let v = ⟦<Worker<L> as TurnWorker>⟧.view self.old in
            steps.new + v.steps v.taken ≡ steps.old + v.steps (⟦<Worker<L> as TurnWorker>⟧.view self.new).taken }
    {
        let taken = self.state.taken as usize;
        if taken == self.fed {
            self.told = tell_all(monitor, &mut self.seat, self.guard, &mut self.state);
            return if self.ended { Turn::Done } else { Turn::Dry };
        }
        let at = taken - self.before;
        let entry = self.stream.get(at);
        let needs = self.stream.needs(at);
        if let Some(short) = short_of(monitor, &mut self.seat, &needs) {
            self.told = tell_all(monitor, &mut self.seat, self.guard, &mut self.state);
            return short.answer();
        }
        if self.state.make_room(MAX_REPORTS).is_err() {
            return Turn::NoMemory;
        }
        let told = self.told;
        self.told = keep_up(monitor, &mut self.seat, self.guard, &mut self.state, told);
        take_record(
            monitor,
            &mut self.seat,
            self.guard,
            &mut self.state,
            entry,
            steps,
        );
        Turn::Moved
    }
}
