//! The ranges of an instruction's fields.
ghost use Rattle.std.specs.Prelude.{◌≡◌, ◌%◌, ◌<◌, IsTrue, ◌↔◌, ℤ, pos, neg_ℤ, ◌≤ℤ◌, ◌<ℤ◌, unsigned_abs};
ghost use Rattle.rv_isa.specs.Table.{row, op_imm};
ghost use Rattle.rv_isa.specs.Valid.{IsValid, IsWithin, IsOffset, IsOperand};

use crate::instruction::{ImmOp, Instr};

/// Whether every field is in its range, so that the instruction has a word.
pub fn valid(i: &Instr) -> bool
    ensures { IsTrue result ↔ IsValid i.now }
{
    match *i {
        Instr::Lui { rd, imm } | Instr::Auipc { rd, imm } => rd < 32 && imm < 1 << 20,
        Instr::Jal { rd, off } => rd < 32 && is_offset(off, 1 << 20),
        Instr::Jalr { rd, rs1, imm } => rd < 32 && rs1 < 32 && is_within(imm, 1 << 11),
        Instr::Branch {
            op: _,
            rs1,
            rs2,
            off,
        } => rs1 < 32 && rs2 < 32 && is_offset(off, 1 << 12),
        Instr::Load {
            width: _,
            rd,
            rs1,
            imm,
        } => rd < 32 && rs1 < 32 && is_within(imm, 1 << 11),
        Instr::Store {
            width: _,
            rs2,
            rs1,
            imm,
        } => { rs2 < 32 && rs1 < 32 && is_within(imm, 1 << 11) }
        Instr::OpImm { op, rd, rs1, imm } => rd < 32 && rs1 < 32 && is_operand(op, imm),
        Instr::Op {
            op: _,
            rd,
            rs1,
            rs2,
        } => rd < 32 && rs1 < 32 && rs2 < 32,
        Instr::Fence { bits } => bits % 128 == 0 && bits / 4096 % 8 == 0,
        Instr::Ecall => true,
    }
}

fn is_operand(op: ImmOp, imm: i32) -> bool
    ensures { IsTrue result ↔ IsOperand (row (op_imm op)).form imm }
{
    match op {
        ImmOp::Slli | ImmOp::Srli | ImmOp::Srai => 0 <= imm && imm < 32,
        _ => is_within(imm, 1 << 11),
    }
}

fn is_offset(off: i32, bound: i32) -> bool
    requires { pos 0 ≤ℤ bound }
    ensures { IsTrue result ↔ ((neg_ℤ bound ≤ℤ off) × (off <ℤ bound)) × (unsigned_abs off % 2 ≡ 0) }
{
    is_within(off, bound) && off.unsigned_abs() % 2 == 0
}

fn is_within(value: i32, bound: i32) -> bool
    requires { pos 0 ≤ℤ bound }
    ensures { IsTrue result ↔ ((neg_ℤ bound ≤ℤ value) × (value <ℤ bound)) }
{
    -bound <= value && value < bound
}
