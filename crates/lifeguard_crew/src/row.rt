//! Rows of slots: how they are filled, split, joined and read out.
ghost use Rattle.std.specs.Prelude.{◌≡◌, ◌<◌, ◌≤◌, ℕ, IfOk, length, map, slice_index_or};
ghost use Rattle.guard_table.specs.declared.seats.GuardSeat.{GuardSeat};
ghost use Rattle.turn_worker.specs.declared.worker.HartResult.{HartResult};
ghost use Rattle.lifeguard_crew.specs.declared.slot.Slot.TheVariants.{Ended};
ghost use Rattle.lifeguard_crew.specs.inner.Slots.{slot_at, manned, joined, HasFoundAll, IsSplit};

use crate::finished::Finished;
use crate::slot::Slot;
use pl_base::NoMemory;
use std::alloc::Global;
use std::mem;

// A row with every worker in its slot.
pub(crate) fn man<W: Drop>(alloc: Global, workers: Vec<W>) -> Result<Vec<Slot<W>>, NoMemory>
    ensures { IfOk result (λ row. row.items ≡ map manned workers.items) }
{
    let mut row = Vec::with_capacity(alloc, workers.len())?;
    for worker in workers {
        row.push(Slot::Works { worker, number: 1 })?;
    }
    Ok(row)
}

// Moves the slots of harts h with h mod n = i into a row of their own.
pub(crate) fn part<W: Drop>(
    alloc: Global,
    own: &mut [Slot<W>],
    i: usize,
    n: usize,
) -> Result<Vec<Slot<W>>, NoMemory>
    requires { 0 < n }
    ensures len { IfOk result (λ row. length row.items ≡ length own.old) }
    ensures split { IfOk result (λ row.
        (k : ℕ) → IsSplit (slot_at own.old k) (slot_at own.new k) (slot_at row.items k)) }
{
    let mut row = Vec::with_capacity(alloc, own.len())?;
    for h in 0..own.len() {
        let slot = move_slot(&mut own[h], h % n == i);
        row.push(slot)?;
    }
    Ok(row)
}

fn move_slot<W: Drop>(own: &mut Slot<W>, moves: bool) -> Slot<W>
    ensures { IsSplit own.old own.new result }
{
    if moves {
        mem::replace(own, Slot::Idle)
    } else {
        Slot::Idle
    }
}

// Puts what another row has into this one.
pub(crate) fn put_back<W: Drop>(own: &mut [Slot<W>], mut theirs: Vec<Slot<W>>)
    requires { length own.old ≡ length theirs.items }
    ensures { (k : ℕ) → slot_at own.new k ≡ joined (slot_at own.old k) (slot_at theirs.items k) }
{
    let from = theirs.as_mut_slice();
    for h in 0..own.len() {
        put_slot(&mut own[h], mem::replace(&mut from[h], Slot::Idle));
    }
}

fn put_slot<W: Drop>(own: &mut Slot<W>, theirs: Slot<W>)
    ensures { own.new ≡ joined own.old theirs }
{
    match theirs {
        Slot::Idle => {}
        other => *own = other,
    }
}

// What the workers of a row have found, where all have ended.
pub(crate) fn collect<W: Drop>(alloc: Global, mut row: Vec<Slot<W>>) -> Result<Finished, NoMemory>
    requires { (k : ℕ) → k < length row.items → HasFoundAll (slot_at row.items k) }
    ensures results { IfOk result (λ f. length f.results.items ≡ length row.items) }
    ensures seats { IfOk result (λ f. length f.seats.items ≡ length row.items) }
    ensures each { IfOk result (λ f. (k : ℕ) (r : HartResult) (s : GuardSeat) → k < length row.items →
        slot_at row.items k ≡ Ended (slice_index_or f.results.items k r) (slice_index_or f.seats.items k s)) }
{
    let mut results = Vec::with_capacity(alloc, row.len())?;
    let mut seats = Vec::with_capacity(alloc, row.len())?;
    let from = row.as_mut_slice();
    for h in 0..from.len() {
        match mem::replace(&mut from[h], Slot::Idle) {
            Slot::Ended { result, seat } => {
                results.push(result)?;
                seats.push(seat)?;
            }
            _ => unreachable!(),
        }
    }
    Ok(Finished { results, seats })
}
