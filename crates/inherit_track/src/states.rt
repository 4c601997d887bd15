//! The registers that are held, one by one.
ghost use Rattle.std.specs.Prelude.{◌≡◌, ◌<◌, ◌↔◌, IsTrue, IfSome, None};
ghost use Rattle.pl_base.specs.declared.layout.TheConstants.{MEMORY_BYTES};
ghost use Rattle.inherit_track.specs.States.{state_in, AreSound, IsResolved, HoldsIn, HoldsSome, IsOldest};
ghost use Rattle.inherit_track.specs.inner.Held.{held_bits};

use crate::held::{lowest, without};
use crate::state::{Held, RegState, is_held, is_in_block, older, resolved};

// The states once the mask of a source is known, and which of them are held then.
pub(crate) fn resolve_all(states: &mut [RegState; 34], held: &mut u64, from: Held, mask: u8)
    requires sound { AreSound states.old }
    requires held { held.old ≡ held_bits states.old }
    requires mask { mask < 16 }
    ensures resolved { IsResolved from mask (state_in states.old) (state_in states.new) }
    ensures sound { AreSound states.new }
    ensures held { held.new ≡ held_bits states.new }
{
    let mut left = *held;
    while left != 0 {
        let r = lowest(left);
        left = without(left, r);
        states[r] = resolved(states[r], from, mask);
        if !is_held(states[r]) {
            *held = without(*held, r);
        }
    }
}

// Whether one is held, and a byte of its source lies in the block.
pub(crate) fn hold_in(states: &[RegState; 34], held: u64, block_start: u32, block: u8) -> bool
    requires sound { AreSound states.now }
    requires held { held ≡ held_bits states.now }
    requires start { block_start < MEMORY_BYTES }
    ensures { IsTrue result ↔ HoldsIn states.now block_start block }
{
    let mut left = held;
    while left != 0 {
        let r = lowest(left);
        if is_in_block(states[r], block_start, block) {
            return true;
        }
        left = without(left, r);
    }
    false
}

// The least record number of a source that is held.
pub(crate) fn oldest_of(states: &[RegState; 34], held: u64) -> Option<u32>
    requires held { held ≡ held_bits states.now }
    ensures none { result ≡ None ↔ (HoldsSome states.now → ⊥) }
    ensures least { IfSome result (λ number. IsOldest states.now number) }
{
    let mut left = held;
    let mut least = None;
    while left != 0 {
        let r = lowest(left);
        least = older(least, states[r]);
        left = without(left, r);
    }
    least
}
