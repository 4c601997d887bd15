//! A new worker.
ghost use Rattle.std.specs.Prelude.{◌≡◌, IfOk};
ghost use Rattle.guard_table.specs.Seats.{seat_view};
ghost use Rattle.lifeguard_worker.specs.Workers.{IsOfRun, first_worker, table_of};

use crate::rows::Rows;
use crate::worker::Worker;
use guard_table::GuardSeat;
use lifeguard::Lifeguard;
use pl_base::NoMemory;
use std::alloc::Global;
use turn_worker::TurnWorker;
use worker_records::State;

impl<L: Lifeguard> Worker<L> {
    /// The worker of the hart of a seat that has done nothing. The run of the seat is lawful, and its operations are
    /// those of its log under the lifeguard's rules.
    pub fn new(alloc: Global, guard: L, seat: GuardSeat) -> Result<Worker<L>, NoMemory>
        requires run { IsOfRun (L.rules guard) (seat_view seat) }
        requires written { (seat_view seat).written ≡ 0 }
        requires progress { (seat_view seat).progress ≡ 0 }
        ensures worker { IfOk result (λ worker. ⟦<Worker<L> as TurnWorker>⟧.view worker
            ≡ first_worker (L.rules guard) (table_of seat) (seat_view seat)) }
        ensures guard { IfOk result (λ worker. ⟦<Worker<L> as TurnWorker>⟧.guard worker ≡ guard) }
    {
        Ok(Worker {
            guard,
            seat,
            state: State::new(alloc),
            told: 0,
            before: 0,
            stream: Rows::new(alloc),
            fed: 0,
            ended: false,
        })
    }
}
