//! The seats given back, and the table closed.
ghost use Rattle.std.specs.Prelude.{◌≡◌, ◌<◌, ◌^◌, ℕ, length, IfOk, Contains, slice_index};
ghost use mathlib.Core.Option.{some};
ghost use lib.ListN.{get_elem?};
ghost use Rattle.order_core.specs.Course.{course};
ghost use Rattle.guard_table.specs.declared.seats.GuardSeat.{GuardSeat};
ghost use Rattle.guard_table.specs.Seats.{AreLastWords, IsHeadOf, head_view, plan_of};
ghost use Rattle.lifeguard_crew.specs.Drivers.{IsSeatAtEnd};

use guard_table::{GuardSeat, Head, Monitor};
use order_core::Plan;
use pl_base::NoMemory;
use std::alloc::Global;

// Gives the seats of the harts back, by number.
fn give_back_all<P: Plan>(monitor: &Monitor<P>, head: &mut Head, seats: Vec<GuardSeat>)
    requires of { IsHeadOf P.planned monitor.now head.old }
    requires seats { (k : ℕ) (s : GuardSeat) → get_elem? seats.items k ≡ some s →
        IsSeatAtEnd P.planned monitor.now k s }
    ensures of { IsHeadOf P.planned monitor.now head.new }
    ensures freed { (k : ℕ) → k < length seats.items → Contains (head_view head.new).freed k }
{
    for seat in seats {
        monitor.give_back(head, seat);
    }
}

// Words have 64 bits.
fn words_are_wide(words: &[u64])
    ensures { (i : ℕ) → i < length words.now → slice_index words.now i < 2 ^ 64 }
{}

/// The words of the table after the run, whose seats are all at the end of their harts' streams.
pub fn last_words<P: Plan + Drop>(
    alloc: Global,
    monitor: Monitor<P>,
    mut head: Head,
    seats: Vec<GuardSeat>,
) -> Result<Vec<u64>, NoMemory>
    requires of { IsHeadOf P.planned monitor head }
    requires size { length seats.items ≡ (P.planned (plan_of monitor)).log.harts }
    requires seats { (k : ℕ) (s : GuardSeat) → get_elem? seats.items k ≡ some s → IsSeatAtEnd P.planned monitor k s }
    ensures last { IfOk result (λ words. AreLastWords (course P.planned (plan_of monitor)) words.items) }
    ensures wide { IfOk result (λ words.
        (i : ℕ) → i < length words.items → slice_index words.items i < 2 ^ 64) }
{
    give_back_all(&monitor, &mut head, seats);
    match monitor.close(alloc, head) {
        Ok(words) => {
            words_are_wide(words.as_slice());
            Ok(words)
        }
        Err(_) => Err(NoMemory),
    }
}
