//! A hart between two instructions.
use pl_base::layout::{STACK_BYTES, STACKS_START};
use std::marker::Model;

/// A hart between two instructions.
#[derive(Clone, Copy, Debug, PartialEq, Eq)]
pub struct HartState {
    /// The address of the next instruction.
    pub pc: u32,
    /// x0 to x31.
    registers: [u32; 32],
}

impl Model for HartState {
    ghost use Rattle.std.specs.Prelude.{◌≡◌, slice_index};
    ghost use Rattle.rv_exec.specs.Hart.{Hart};

    ghost Value = { Hart };

    ghost view = { λ s. record { pc = s.pc; registers = s.registers } };

    ghost invariant = { λ s. slice_index s.registers 0 ≡ 0 };

    ghost inverse = { λ h. record { pc = h.pc; registers = h.registers } };
}

impl HartState {
    ghost use Rattle.std.specs.Prelude.{◌≡◌, ◌<◌, ◌+◌, ◌%◌, ◌^◌};
    ghost use Rattle.rv_exec.specs.Hart.{x, written, started};
    ghost use Rattle.rv_exec.specs.Meaning.{moved};

    /// A hart at its entry: a0 is its number, sp the end of its stack, and every other register 0.
    pub fn start(pc: u32, hart: u8) -> HartState
        ensures { result ≡ started pc hart }
    {
        let mut registers = [0; 32];
        registers[2] = STACKS_START + (u32::from(hart) + 1) * STACK_BYTES;
        registers[10] = u32::from(hart);
        HartState { pc, registers }
    }

    /// What register `r` holds; 0 for register 0.
    #[inline]
    pub fn reg(&self, r: u8) -> u32
        requires { r < 32 }
        ensures value { result ≡ x self.now r }
        ensures zero { r ≡ 0 → result ≡ 0 }
    {
        self.registers[r as usize]
    }

    /// The address that lies so many bytes from the one in register `r`.
    #[inline]
    pub fn address(&self, r: u8, offset: i32) -> u32
        requires { r < 32 }
        ensures { result ≡ moved (x self.now r) offset }
    {
        self.reg(r).wrapping_add_signed(offset)
    }

    /// Writes register `rd`, which register 0 does not take, and goes on at `pc`.
    #[inline]
    pub(crate) fn put(&mut self, rd: u8, value: u32, pc: u32)
        requires { rd < 32 }
        ensures { self.new ≡ record { pc = pc; registers = written rd value self.old.registers } }
    {
        if rd != 0 {
            self.registers[rd as usize] = value;
        }
        self.pc = pc;
    }

    /// Goes on at `pc`, with its registers as they are.
    #[inline]
    pub(crate) fn go(&mut self, pc: u32)
        ensures { self.new ≡ record { pc = pc; registers = self.old.registers } }
    {
        self.pc = pc;
    }

    /// The address of the instruction that follows in memory.
    #[inline]
    pub(crate) fn next_pc(&self) -> u32
        ensures { result ≡ (self.now.pc + 4) % 2 ^ 32 }
    {
        self.pc.wrapping_add(4)
    }
}
