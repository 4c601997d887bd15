//! What a worker does between two records: steps of its seat, and reads of held loads.
ghost use Rattle.std.specs.Prelude.{◌≡◌, ℕ, ◌+◌, ◌^◌, ◌<◌, ◌≤◌, slice_index};
ghost use Rattle.pl_base.specs.declared.layout.TheConstants.{REGISTERS};
ghost use Rattle.lifeguard.specs.Plain.{loaded_mask};
ghost use Rattle.order_core.specs.Core.{IsPassed};
ghost use Rattle.order_core.specs.Course.{course_of};
ghost use Rattle.order_core.specs.Lanes.{HasValueOf};
ghost use Rattle.guard_table.specs.declared.view.View.{View};
ghost use Rattle.guard_table.specs.Views.{advertised, learnt_from, looked};
ghost use Rattle.inherit_track.specs.declared.state.Held.{Held};
ghost use Rattle.inherit_track.specs.declared.state.RegState.{RegState};
ghost use Rattle.inherit_track.specs.declared.state.RegState.TheVariants as reg;
ghost use Rattle.inherit_track.specs.States.{IsResolved};
ghost use Rattle.worker_laws.specs.Runs.{IsRun, Run, before, masks_before};
ghost use Rattle.worker_laws.specs.Reads.{IsHeld, directory_of, directory_read, mask_in, value_read};
ghost use Rattle.worker_laws.specs.Kept.{Kept, Parts};

/// A look at another hart and a note learnt change nothing. What is taken may be advertised, and where that is below
/// each held load it is kept too.
pub fn seat_steps_keep()
    ensures looks { (p : Run) → IsRun p → (h n u seen : ℕ) (v : View) (parts : Parts) → Kept p h v n parts
        → slice_index v.seen u ≤ seen → Kept p h (looked u seen v) n parts }
    ensures learns { (p : Run) → IsRun p → (h n : ℕ) (note v : View) (parts : Parts) → Kept p h v n parts
        → Kept p h (learnt_from note v) n parts }
    ensures passed { (p : Run) → IsRun p → (h n upto : ℕ) (v : View) (parts : Parts) → Kept p h v n parts → upto ≤ n
        → IsPassed (course_of p.plan) v.written (slice_index v.seen) h upto }
    ensures advertises { (p : Run) → IsRun p → (h n upto : ℕ) (v : View) (parts : Parts) → Kept p h v n parts
        → upto ≤ n → n ≤ upto + 64 → ((r : ℕ) (from : Held) → parts.states r ≡ reg.Held from → upto < from.number)
        → Kept p h (advertised upto v) n parts }
{}

/// Both reads of a held load may be made. Its read of the directory finds the word from which its shadow word follows,
/// and its read of the value finds its mask, by which each register that is held for it is known.
pub fn held_loads()
    ensures held { (p : Run) → IsRun p → (h n r : ℕ) (from : Held) (v : View) (parts : Parts) → Kept p h v n parts
        → r < REGISTERS → parts.states r ≡ reg.Held from → IsHeld p h v n from (masks_before p h (n + 1) r) }
    ensures directory { (p : Run) → IsRun p → (h n r x : ℕ) (from : Held) (v : View) (parts : Parts)
        → Kept p h v n parts → r < REGISTERS → parts.states r ≡ reg.Held from → x < 2 ^ 64
        → HasValueOf (directory_read (before p h from.number).words from.addr) x
        → x ≡ (before p h from.number).words (directory_of from.addr) }
    ensures mask { (p : Run) → IsRun p → (h n r x : ℕ) (from : Held) (v : View) (parts : Parts) → Kept p h v n parts
        → r < REGISTERS → parts.states r ≡ reg.Held from
        → HasValueOf (value_read p.plan.log.block (before p h from.number).words from.addr) x
        → mask_in p.rules from.width x from.addr ≡ masks_before p h (n + 1) r }
    ensures resolved { (p : Run) → IsRun p → (h n r x : ℕ) (from : Held) (states : ℕ → RegState) (v : View)
        (parts : Parts) → Kept p h v n parts → r < REGISTERS → parts.states r ≡ reg.Held from
        → HasValueOf (value_read p.plan.log.block (before p h from.number).words from.addr) x
        → IsResolved from (mask_in p.rules from.width x from.addr) parts.states states
        → Kept p h v n (record parts { states = states }) }
{}
