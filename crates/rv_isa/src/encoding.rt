//! The word of an instruction.
ghost use Rattle.std.specs.Prelude.{◌≡◌, ℕ, [], ◌∷◌, ◌+◌, ◌*◌, ◌^◌, ◌<◌, ◌≤◌, ◌%◌, ℤ, pos, neg_ℤ, ◌≤ℤ◌, ◌<ℤ◌, unsigned_abs, Some};
ghost use Rattle.rv_isa.specs.Fields.{bits, rd_of, rs1_of, rs2_of, signed, immediate, I, S, B, U, J};
ghost use Rattle.rv_isa.specs.Table.{row, opcode, funct3, funct7, branch, load, store, op_imm, op, instruction_of};
ghost use Rattle.rv_isa.specs.Valid.{IsValid, IsWithin, IsOffset, IsOperand};

use crate::instruction::{BranchOp, ImmOp, Instr, RegOp};
use pl_base::{LoadWidth, StoreWidth};

/// The one word of an instruction whose fields are in their ranges.
pub fn encode(i: &Instr) -> u32
    requires { IsValid i.now }
    ensures back { instruction_of result ≡ Some i.now }
    ensures only { (word : ℕ) → word < 2 ^ 32 → instruction_of word ≡ Some i.now → word ≡ result }
{
    word_of(i)
}

fn word_of(i: &Instr) -> u32
    requires { IsValid i.now }
    ensures { instruction_of result ≡ Some i.now }
{
    match *i {
        Instr::Lui { rd, imm } => upper(0b0110111, rd, imm),
        Instr::Auipc { rd, imm } => upper(0b0010111, rd, imm),
        Instr::Jal { rd, off } => jump(0b1101111, rd, off),
        Instr::Jalr { rd, rs1, imm } => with_immediate(0b1100111, rd, 0b000, rs1, imm),
        Instr::Branch { op, rs1, rs2, off } => branch(op, rs1, rs2, off),
        Instr::Load {
            width,
            rd,
            rs1,
            imm,
        } => load(width, rd, rs1, imm),
        Instr::Store {
            width,
            rs2,
            rs1,
            imm,
        } => store(width, rs2, rs1, imm),
        Instr::OpImm { op, rd, rs1, imm } => op_imm(op, rd, rs1, imm),
        Instr::Op { op, rd, rs1, rs2 } => operate(op, rd, rs1, rs2),
        Instr::Fence { bits } => bits + 0b0001111,
        Instr::Ecall => 0b1110011,
    }
}

fn branch(op: BranchOp, rs1: u8, rs2: u8, off: i32) -> u32
    requires { IsValid (Instr.Branch op rs1 rs2 off) }
    ensures { instruction_of result ≡ Some (Instr.Branch op rs1 rs2 off) }
{
    branch_word(0b1100011, branch_funct3(op), rs1, rs2, off)
}

fn branch_funct3(op: BranchOp) -> u32
    ensures selection { (row (branch op)).fixed ≡ opcode 0b1100011 ∷ funct3 result ∷ [] }
    ensures bound { result < 8 }
{
    match op {
        BranchOp::Beq => 0b000,
        BranchOp::Bne => 0b001,
        BranchOp::Blt => 0b100,
        BranchOp::Bge => 0b101,
        BranchOp::Bltu => 0b110,
        BranchOp::Bgeu => 0b111,
    }
}

fn load(width: LoadWidth, rd: u8, rs1: u8, imm: i32) -> u32
    requires { IsValid (Instr.Load width rd rs1 imm) }
    ensures { instruction_of result ≡ Some (Instr.Load width rd rs1 imm) }
{
    with_immediate(0b0000011, rd, load_funct3(width), rs1, imm)
}

fn load_funct3(width: LoadWidth) -> u32
    ensures selection { (row (load width)).fixed ≡ opcode 0b0000011 ∷ funct3 result ∷ [] }
    ensures bound { result < 8 }
{
    match width {
        LoadWidth::B => 0b000,
        LoadWidth::H => 0b001,
        LoadWidth::W => 0b010,
        LoadWidth::Bu => 0b100,
        LoadWidth::Hu => 0b101,
    }
}

fn store(width: StoreWidth, rs2: u8, rs1: u8, imm: i32) -> u32
    requires { IsValid (Instr.Store width rs2 rs1 imm) }
    ensures { instruction_of result ≡ Some (Instr.Store width rs2 rs1 imm) }
{
    store_word(0b0100011, store_funct3(width), rs1, rs2, imm)
}

fn store_funct3(width: StoreWidth) -> u32
    ensures selection { (row (store width)).fixed ≡ opcode 0b0100011 ∷ funct3 result ∷ [] }
    ensures bound { result < 8 }
{
    match width {
        StoreWidth::B => 0b000,
        StoreWidth::H => 0b001,
        StoreWidth::W => 0b010,
    }
}

fn op_imm(op: ImmOp, rd: u8, rs1: u8, imm: i32) -> u32
    requires { IsValid (Instr.OpImm op rd rs1 imm) }
    ensures { instruction_of result ≡ Some (Instr.OpImm op rd rs1 imm) }
{
    match op {
        ImmOp::Addi => with_immediate(0b0010011, rd, 0b000, rs1, imm),
        ImmOp::Slti => with_immediate(0b0010011, rd, 0b010, rs1, imm),
        ImmOp::Sltiu => with_immediate(0b0010011, rd, 0b011, rs1, imm),
        ImmOp::Xori => with_immediate(0b0010011, rd, 0b100, rs1, imm),
        ImmOp::Ori => with_immediate(0b0010011, rd, 0b110, rs1, imm),
        ImmOp::Andi => with_immediate(0b0010011, rd, 0b111, rs1, imm),
        ImmOp::Slli => shift(rd, 0b001, rs1, imm, 0b0000000),
        ImmOp::Srli => shift(rd, 0b101, rs1, imm, 0b0000000),
        ImmOp::Srai => shift(rd, 0b101, rs1, imm, 0b0100000),
    }
}

fn operate(op: RegOp, rd: u8, rs1: u8, rs2: u8) -> u32
    requires { IsValid (Instr.Op op rd rs1 rs2) }
    ensures { instruction_of result ≡ Some (Instr.Op op rd rs1 rs2) }
{
    let (funct3, funct7) = selection(op);
    pack(
        0b0110011,
        u32::from(rd),
        funct3,
        u32::from(rs1),
        u32::from(rs2),
        funct7,
    )
}

fn selection(operation: RegOp) -> (u32, u32)
    ensures fixed { (row (op operation)).fixed ≡ opcode 0b0110011 ∷ funct3 result.0 ∷ funct7 result.1 ∷ [] }
    ensures bound { (result.0 < 8) × (result.1 < 128) }
{
    match operation {
        RegOp::Add => (0b000, 0b0000000),
        RegOp::Sll => (0b001, 0b0000000),
        RegOp::Slt => (0b010, 0b0000000),
        RegOp::Sltu => (0b011, 0b0000000),
        RegOp::Xor => (0b100, 0b0000000),
        RegOp::Srl => (0b101, 0b0000000),
        RegOp::Or => (0b110, 0b0000000),
        RegOp::And => (0b111, 0b0000000),
        RegOp::Sub => (0b000, 0b0100000),
        RegOp::Sra => (0b101, 0b0100000),
        RegOp::Mul => (0b000, 0b0000001),
        RegOp::Mulh => (0b001, 0b0000001),
        RegOp::Mulhsu => (0b010, 0b0000001),
        RegOp::Mulhu => (0b011, 0b0000001),
        RegOp::Div => (0b100, 0b0000001),
        RegOp::Divu => (0b101, 0b0000001),
        RegOp::Rem => (0b110, 0b0000001),
        RegOp::Remu => (0b111, 0b0000001),
    }
}

fn upper(opcode: u32, rd: u8, imm: u32) -> u32
    requires ranges { (opcode < 128) × (rd < 32) × (imm < 2 ^ 20) }
    ensures opcode { result % 128 ≡ opcode }
    ensures rd { rd_of result ≡ rd }
    ensures imm { bits 12 20 result ≡ imm }
{
    opcode + u32::from(rd) * (1 << 7) + imm * (1 << 12)
}

fn jump(opcode: u32, rd: u8, off: i32) -> u32
    requires ranges { (opcode < 128) × (rd < 32) }
    requires off { IsOffset 20 off }
    ensures opcode { result % 128 ≡ opcode }
    ensures rd { rd_of result ≡ rd }
    ensures off { immediate J result ≡ off }
{
    let low = low_bits(off, 1 << 20);
    let high = low / (1 << 20) * (1 << 19) + low / 2 % (1 << 10) * (1 << 9);
    upper(
        opcode,
        rd,
        high + low / (1 << 11) % 2 * (1 << 8) + low / (1 << 12) % (1 << 8),
    )
}

fn branch_word(opcode: u32, funct3: u32, rs1: u8, rs2: u8, off: i32) -> u32
    requires ranges { (opcode < 128) × (funct3 < 8) × (rs1 < 32) × (rs2 < 32) }
    requires off { IsOffset 12 off }
    ensures opcode { result % 128 ≡ opcode }
    ensures funct3 { bits 12 3 result ≡ funct3 }
    ensures rs1 { rs1_of result ≡ rs1 }
    ensures rs2 { rs2_of result ≡ rs2 }
    ensures off { immediate B result ≡ off }
{
    let low = low_bits(off, 1 << 12);
    let rd = low / 2 % 16 * 2 + low / (1 << 11) % 2;
    let funct7 = low / 32 % 64 + low / (1 << 12) * 64;
    pack(opcode, rd, funct3, u32::from(rs1), u32::from(rs2), funct7)
}

fn store_word(opcode: u32, funct3: u32, rs1: u8, rs2: u8, imm: i32) -> u32
    requires ranges { (opcode < 128) × (funct3 < 8) × (rs1 < 32) × (rs2 < 32) }
    requires imm { IsWithin 11 imm }
    ensures opcode { result % 128 ≡ opcode }
    ensures funct3 { bits 12 3 result ≡ funct3 }
    ensures rs1 { rs1_of result ≡ rs1 }
    ensures rs2 { rs2_of result ≡ rs2 }
    ensures imm { immediate S result ≡ imm }
{
    let low = low_bits(imm, 1 << 11);
    pack(
        opcode,
        low % 32,
        funct3,
        u32::from(rs1),
        u32::from(rs2),
        low / 32,
    )
}

fn with_immediate(opcode: u32, rd: u8, funct3: u32, rs1: u8, imm: i32) -> u32
    requires ranges { (opcode < 128) × (rd < 32) × (funct3 < 8) × (rs1 < 32) }
    requires imm { IsWithin 11 imm }
    ensures opcode { result % 128 ≡ opcode }
    ensures rd { rd_of result ≡ rd }
    ensures funct3 { bits 12 3 result ≡ funct3 }
    ensures rs1 { rs1_of result ≡ rs1 }
    ensures imm { immediate I result ≡ imm }
{
    let low = low_bits(imm, 1 << 11);
    pack(
        opcode,
        u32::from(rd),
        funct3,
        u32::from(rs1),
        low % 32,
        low / 32,
    )
}

fn shift(rd: u8, funct3: u32, rs1: u8, amount: i32, funct7: u32) -> u32
    requires ranges { (rd < 32) × (funct3 < 8) × (rs1 < 32) × (funct7 < 128) }
    requires amount { (pos 0 ≤ℤ amount) × (amount <ℤ pos 32) }
    ensures opcode { result % 128 ≡ 0b0010011 }
    ensures rd { rd_of result ≡ rd }
    ensures funct3 { bits 12 3 result ≡ funct3 }
    ensures rs1 { rs1_of result ≡ rs1 }
    ensures amount { pos (rs2_of result) ≡ amount }
    ensures funct7 { bits 25 7 result ≡ funct7 }
{
    pack(
        0b0010011,
        u32::from(rd),
        funct3,
        u32::from(rs1),
        amount as u32,
        funct7,
    )
}

/// The word of six fields, one above the other.
fn pack(opcode: u32, rd: u32, funct3: u32, rs1: u32, rs2: u32, funct7: u32) -> u32
    requires low { (opcode < 128) × (rd < 32) × (funct3 < 8) }
    requires high { (rs1 < 32) × (rs2 < 32) × (funct7 < 128) }
    ensures opcode { result % 128 ≡ opcode }
    ensures rd { rd_of result ≡ rd }
    ensures funct3 { bits 12 3 result ≡ funct3 }
    ensures rs1 { rs1_of result ≡ rs1 }
    ensures rs2 { rs2_of result ≡ rs2 }
    ensures funct7 { bits 25 7 result ≡ funct7 }
{
    let low = opcode + rd * (1 << 7) + funct3 * (1 << 12);
    low + rs1 * (1 << 15) + rs2 * (1 << 20) + funct7 * (1 << 25)
}

/// A number in two's complement, whose top bit is worth `sign`.
fn low_bits(value: i32, sign: u32) -> u32
    requires small { sign ≤ 2 ^ 20 }
    requires within { (neg_ℤ (pos sign) ≤ℤ value) × (value <ℤ pos sign) }
    ensures below { result < 2 * sign }
    ensures value { signed sign result ≡ value }
    ensures even { unsigned_abs value % 2 ≡ 0 → result % 2 ≡ 0 }
{
    if value < 0 {
        (value + 2 * sign as i32) as u32
    } else {
        value as u32
    }
}
