//! The workers of all harts, each on its seat.
ghost use Rattle.std.specs.Prelude.{◌≡◌, ◌<◌, [], IfOk, Contains};
ghost use Rattle.order_core.specs.Course.{course};
ghost use Rattle.guard_table.specs.Seats.{IsHeadOf, head_view, plan_of};
ghost use Rattle.guard_table.specs.Views.{fresh_view, made_seat};
ghost use Rattle.log_plan.specs.Plans.{plan_of as plan_under};
ghost use Rattle.lifeguard_worker.specs.Workers.{first_worker};
ghost use Rattle.log_watch.specs.Crews.{AreFirst, table_id_of};

use guard_table::{Head, Monitor};
use lifeguard::Lifeguard;
use lifeguard_worker::Worker;
use order_core::Plan;
use pl_base::NoMemory;
use std::alloc::Global;
use turn_worker::TurnWorker;

// The worker of a hart, whose seat was not made yet.
fn worker<P: Plan, L: Lifeguard>(
    alloc: Global,
    monitor: &Monitor<P>,
    head: &mut Head,
    guard: L,
    hart: u8,
) -> Result<Worker<L>, NoMemory>
    requires of { IsHeadOf P.planned monitor.now head.old }
    requires plan { let planned = P.planned (plan_of monitor.now) in planned ≡ plan_under (L.rules guard) planned.log }
    requires inside { hart < (P.planned (plan_of monitor.now)).log.harts }
    requires once { Contains (head_view head.old).made hart → ⊥ }
    ensures of { IsHeadOf P.planned monitor.now head.new }
    ensures head { head_view head.new ≡ made_seat hart (head_view head.old) }
    ensures worker { IfOk result (λ worker. ⟦<Worker<L> as TurnWorker>⟧.view worker
        ≡ first_worker (L.rules guard) (table_id_of monitor.now) (fresh_view hart (head_view head.old))) }
{
    let seat = monitor.seat(head, hart);
    Ok(Worker::new(alloc, guard, seat)?)
}

/// A worker for each hart of the run, by number, each of which was fed nothing. No seat was made before.
pub fn first_crew<P: Plan, L: Lifeguard>(
    alloc: Global,
    monitor: &Monitor<P>,
    head: &mut Head,
    guard: L,
) -> Result<Vec<Worker<L>>, NoMemory>
    requires of { IsHeadOf P.planned monitor.now head.old }
    requires plan { let planned = P.planned (plan_of monitor.now) in planned ≡ plan_under (L.rules guard) planned.log }
    requires none { (head_view head.old).made ≡ [] }
    ensures of { IsHeadOf P.planned monitor.now head.new }
    ensures workers { IfOk result (λ workers. AreFirst ⟦<Worker<L> as TurnWorker>⟧.view (L.rules guard)
        (table_id_of monitor.now) (course P.planned (plan_of monitor.now)) workers.items) }
{
    let mut workers = Vec::with_capacity(alloc, usize::from(monitor.harts()))?;
    for hart in 0..monitor.harts() {
        workers.push(worker(alloc, monitor, head, guard, hart)?)?;
    }
    Ok(workers)
}
