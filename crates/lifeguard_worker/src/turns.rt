//! What a worker is fed and told between its turns, its turns, and its end.
use crate::stream::add_fed;
use crate::worker::Worker;
use guard_table::{GuardSeat, Monitor, Note};
use lifeguard::Lifeguard;
use order_core::Plan;
use pl_base::{NoMemory, Steps};
use pl_event::Fed;
use std::sync::ledger::Ledger;
use turn_worker::{FeedRefused, HartResult, Turn, TurnWorker};

impl<L: Lifeguard> TurnWorker for Worker<L> {
    ghost use Rattle.std.specs.Prelude.{refl};
    ghost use Rattle.guard_table.specs.Seats.{seat_view};
    ghost use Rattle.lifeguard_worker.specs.Workers.{table_of, worker_view};
    ghost use Rattle.lifeguard_worker.specs.Sound.{is_sound};

    type Guard = L;

    ghost guard = { λ w. w.guard };

    ghost view = { λ w.
        worker_view (L.rules w.guard) (table_of w.seat) (seat_view w.seat) w.state w.fed w.ended };

    fn hart(&self) -> u8 {
        self.seat.hart()
    }

    fn reserve(&mut self, spare: u32) -> Result<(), NoMemory> {
        self.state.make_room(spare as usize)
    }

    fn feed(&mut self, fed: Vec<Fed>) -> Result<(), FeedRefused> {
        self.forget();
        let from = self.fed - self.before;
        match add_fed(&mut self.stream, from, &fed) {
            Ok(()) => {
                self.fed += fed.len();
                Ok(())
            }
            Err(_) => Err(FeedRefused { fed }),
        }
    }

    fn no_more(&mut self) {
        self.ended = true;
    }

    fn note<P: Plan>(&mut self, monitor: &Monitor<P>) -> Note {
        monitor.note(&mut self.seat)
    }

    fn learn<P: Plan>(&mut self, monitor: &Monitor<P>, note: Note) {
        monitor.learn(&mut self.seat, note);
    }

    fn turn<P: Plan, K: Ledger>(
        &mut self,
        monitor: &Monitor<P>,
        records: u32,
        steps: &mut Steps<K>,
    ) -> Turn {
        for _ in 0..records {
            match self.turn_one(monitor, steps) {
                Turn::Moved => {}
                end => return end,
            }
        }
        Turn::Moved
    }

    fn end(self) -> (HartResult, GuardSeat) {
        let Worker {
            guard: _,
            seat,
            state,
            told: _,
            before: _,
            stream: _,
            fed: _,
            ended: _,
        } = self;
        let result = HartResult {
            hart: seat.hart(),
            masks: state.masks(),
            checks: state.checks,
            misses: state.misses,
            reports: state.reports,
        };
        (result, seat)
    }

    ghost sound = { λ w. is_sound (L.rules w.guard) w.seat w.state w.told w.before w.stream w.fed w.ended w.is };

    ghost follows = { λ w. refl };
}
