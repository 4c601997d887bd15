//! The states of a hart's registers, and the calls on them.
use crate::held::{with, without};
use crate::state::{Held, RegState, is_held};
use crate::states::{hold_in, oldest_of, resolve_all};
use std::marker::Model;

/// The states of the registers of one hart, 0 to 33.
#[derive(Clone, Copy, Debug)]
pub struct Inherit {
    states: [RegState; 34],
    /// Which of them are held.
    held: u64,
}

impl Model for Inherit {
    ghost use Rattle.inherit_track.specs.declared.state.RegState.{RegState};
    ghost use Rattle.std.specs.Prelude.{◌≡◌, List};
    ghost use Rattle.inherit_track.specs.States.{AreSound};
    ghost use Rattle.inherit_track.specs.inner.Held.{held_bits};

    ghost Value = { List RegState };

    ghost view = { λ i. i.states };

    ghost invariant = { λ i. AreSound i.states × (i.held ≡ held_bits i.states) };

    ghost inverse = { λ states. record { states = states; held = held_bits states } };
}

impl Inherit {
    ghost use Rattle.std.specs.Prelude.{◌≡◌, ℕ, ◌<◌, ◌↔◌, IsTrue, IfSome, None};
    ghost use Rattle.pl_base.specs.declared.layout.TheConstants.{MEMORY_BYTES, REGISTERS};
    ghost use Rattle.inherit_track.specs.declared.state.RegState.TheVariants as reg;
    ghost use Rattle.inherit_track.specs.States.{state_in, with_state, IsInRange, IsResolved};
    ghost use Rattle.inherit_track.specs.States.{HoldsIn, HoldsSome, IsOldest};

    /// All registers are known, and clear.
    pub fn new() -> Inherit
        ensures { (r : ℕ) → state_in result r ≡ reg.Known 0 }
    {
        Inherit {
            states: [RegState::Known(0); 34],
            held: 0,
        }
    }

    /// Register `rd`, below 34, stands for what the load finds, whose address is below 2^24.
    #[inline]
    pub fn load(&mut self, rd: u8, from: Held)
        requires register { rd < REGISTERS }
        requires addr { from.addr < MEMORY_BYTES }
        ensures { (r : ℕ) → state_in self.new r ≡ with_state (state_in self.old) rd (reg.Held from) r }
    {
        self.put(rd, RegState::Held(from));
    }

    /// Register `rd` takes the state of register `rs`, both below 34.
    #[inline]
    pub fn copy(&mut self, rd: u8, rs: u8)
        requires register { rd < REGISTERS }
        requires source { rs < REGISTERS }
        ensures { (r : ℕ) → state_in self.new r ≡ with_state (state_in self.old) rd (state_in self.old rs) r }
    {
        self.put(rd, self.state(rs));
    }

    /// Register `rd`, below 34, has this mask, below 16.
    #[inline]
    pub fn set(&mut self, rd: u8, mask: u8)
        requires register { rd < REGISTERS }
        requires mask { mask < 16 }
        ensures { (r : ℕ) → state_in self.new r ≡ with_state (state_in self.old) rd (reg.Known mask) r }
    {
        self.put(rd, RegState::Known(mask));
    }

    /// The state of register `r`, below 34. Register 0 is always known, and clear.
    #[inline]
    pub fn state(&self, r: u8) -> RegState
        requires { r < REGISTERS }
        ensures state { result ≡ state_in self.now r }
        ensures zero { r ≡ 0 → result ≡ reg.Known 0 }
        ensures range { IsInRange result }
    {
        self.states[r as usize]
    }

    /// The mask of this source, below 16, is known now: each register that stands for it has this mask.
    pub fn resolve(&mut self, from: &Held, mask: u8)
        requires { mask < 16 }
        ensures { IsResolved from.now mask (state_in self.old) (state_in self.new) }
    {
        resolve_all(&mut self.states, &mut self.held, *from, mask);
    }

    /// Whether a register is held, and a byte of its source lies in the block of `block` bytes from `block_start` on,
    /// which is below 2^24.
    pub fn holds(&self, block_start: u32, block: u8) -> bool
        requires { block_start < MEMORY_BYTES }
        ensures { IsTrue result ↔ HoldsIn self.now block_start block }
    {
        hold_in(&self.states, self.held, block_start, block)
    }

    /// The least record number of a source that is held; none exactly where no register is held.
    pub fn oldest(&self) -> Option<u32>
        ensures none { result ≡ None ↔ (HoldsSome self.now → ⊥) }
        ensures least { IfSome result (λ number. IsOldest self.now number) }
    {
        oldest_of(&self.states, self.held)
    }

    // Register `rd` takes the state.
    fn put(&mut self, rd: u8, state: RegState)
        requires register { rd < REGISTERS }
        requires range { IsInRange state }
        ensures { (r : ℕ) → state_in self.new r ≡ with_state (state_in self.old) rd state r }
    {
        if rd != 0 {
            let r = rd as usize;
            self.states[r] = state;
            self.held = if is_held(state) {
                with(self.held, r)
            } else {
                without(self.held, r)
            };
        }
    }
}
