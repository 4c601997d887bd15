//! One step of a hart.
ghost use Rattle.std.specs.Prelude.{◌≡◌, ◌<◌, ◌↔◌, IsNone};
ghost use Rattle.rv_isa.specs.Table.{instruction_of};
ghost use Rattle.rv_isa.specs.Valid.{IsValid};
ghost use Rattle.rv_exec.specs.Meaning.{effect_of, effect_at, extended, IsLoad, IsPlain, loaded, after, at_pc, next_pc};

use crate::arithmetic::{extended, is_taken, on_registers, operate};
use crate::effect::Effect;
use crate::hart::HartState;
use pl_base::LoadWidth;
use rv_isa::{Instr, decode};

/// What the instruction `word` at the hart's pc does.
pub fn begin(state: &HartState, word: u32) -> Effect
    ensures effect { result ≡ effect_at state.now (instruction_of word) }
    ensures illegal { (result ≡ Effect.Illegal) ↔ IsNone (instruction_of word) }
{
    match decode(word) {
        Some(instr) => effect(state, &instr),
        None => Effect::Illegal,
    }
}

fn effect(state: &HartState, instr: &Instr) -> Effect
    requires { IsValid instr.now }
    ensures { result ≡ effect_of state.now instr.now }
{
    let instr = *instr;
    match instr {
        Instr::Load { rs1, imm, .. } => Effect::Load {
            instr,
            addr: state.address(rs1, imm),
        },
        Instr::Store { rs2, rs1, imm, .. } => Effect::Store {
            instr,
            addr: state.address(rs1, imm),
            value: state.reg(rs2),
        },
        Instr::Ecall => Effect::Call,
        _ => {
            let mut next = *state;
            advance(&mut next, &instr);
            Effect::Plain { instr, next }
        }
    }
}

/// Does an instruction that needs neither memory nor the kernel to the hart itself.
#[inline]
pub fn advance(state: &mut HartState, instr: &Instr)
    requires valid { IsValid instr.now }
    requires plain { IsPlain instr.now }
    ensures { effect_of state.old instr.now ≡ Effect.Plain instr.now state.new }
{
    match *instr {
        Instr::Lui { rd, imm } => state.put(rd, imm * (1 << 12), state.next_pc()),
        Instr::Auipc { rd, imm } => {
            state.put(rd, state.pc.wrapping_add(imm * (1 << 12)), state.next_pc())
        }
        Instr::Jal { rd, off } => state.put(rd, state.next_pc(), state.pc.wrapping_add_signed(off)),
        Instr::Jalr { rd, rs1, imm } => {
            let target = state.address(rs1, imm) / 2 * 2;
            state.put(rd, state.next_pc(), target)
        }
        Instr::Branch { op, rs1, rs2, off } => {
            if is_taken(op, state.reg(rs1), state.reg(rs2)) {
                state.go(state.pc.wrapping_add_signed(off))
            } else {
                state.go(state.next_pc())
            }
        }
        Instr::OpImm { op, rd, rs1, imm } => {
            let value = operate(on_registers(op), state.reg(rs1), imm.cast_unsigned());
            state.put(rd, value, state.next_pc())
        }
        Instr::Op { op, rd, rs1, rs2 } => {
            state.put(
                rd,
                operate(op, state.reg(rs1), state.reg(rs2)),
                state.next_pc(),
            )
        }
        Instr::Fence { bits: _ } => state.go(state.next_pc()),
        Instr::Load { .. } | Instr::Store { .. } | Instr::Ecall => {}
    }
}

/// Ends a load in the hart itself, whose bytes, read as one little-endian number, are `raw`: writes its register and
/// goes on to the next instruction.
#[inline]
pub fn end_load(state: &mut HartState, width: LoadWidth, rd: u8, raw: u32)
    requires { rd < 32 }
    ensures { state.new ≡ after state.old rd (extended width raw) (next_pc state.old) }
{
    state.put(rd, extended(width, raw), state.next_pc());
}

/// Ends a store in the hart itself: goes on to the next instruction.
#[inline]
pub fn end_store(state: &mut HartState)
    ensures { state.new ≡ at_pc state.old (next_pc state.old) }
{
    state.go(state.next_pc());
}

/// Ends a call of the kernel in the hart itself: writes its answer to register a0, and goes on to the next
/// instruction.
pub fn end_call(state: &mut HartState, a0: u32)
    ensures { state.new ≡ after state.old 10 a0 (next_pc state.old) }
{
    state.put(10, a0, state.next_pc());
}

/// The hart after a load whose bytes, read as one little-endian number, are `raw`.
pub fn finish_load(state: &HartState, instr: &Instr, raw: u32) -> HartState
    requires valid { IsValid instr.now }
    requires load { IsLoad instr.now }
    ensures { result ≡ loaded state.now instr.now raw }
{
    let mut next = *state;
    if let Instr::Load { width, rd, .. } = *instr {
        end_load(&mut next, width, rd, raw);
    }
    next
}

/// The hart after a store, at the next instruction.
pub fn finish_store(state: &HartState) -> HartState
    ensures { result ≡ at_pc state.now (next_pc state.now) }
{
    let mut next = *state;
    end_store(&mut next);
    next
}

/// The hart after a call of the kernel, with its answer in register a0, at the next instruction.
pub fn finish_call(state: &HartState, a0: u32) -> HartState
    ensures { result ≡ after state.now 10 a0 (next_pc state.now) }
{
    let mut next = *state;
    end_call(&mut next, a0);
    next
}
