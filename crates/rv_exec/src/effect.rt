//! What an instruction does to a hart and asks of memory.
use crate::hart::HartState;
use rv_isa::Instr;

/// What an instruction does, as far as it needs no memory.
#[derive(Clone, Copy, Debug, PartialEq, Eq)]
pub enum Effect {
    /// All is done: the hart is now `next`.
    Plain { instr: Instr, next: HartState },
    /// The bytes from `addr` are wanted, for `finish_load`.
    Load { instr: Instr, addr: u32 },
    /// The low bytes of `value` are to be stored from `addr`, and then `finish_store`.
    Store { instr: Instr, addr: u32, value: u32 },
    /// The kernel is called, and then `finish_call`.
    Call,
    /// The word is no instruction.
    Illegal,
}
