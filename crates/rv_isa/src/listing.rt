//! The text of an instruction in a listing.
ghost use Rattle.std.specs.Prelude.{◌≡◌, ◌++◌, IfOk, string_bytes};
ghost use Rattle.std.specs.Fmt.{decimal, signed_decimal};
ghost use Rattle.rv_isa.specs.Table.{row, branch, load, store, op_imm, op};
ghost use Rattle.rv_isa.specs.Valid.{IsValid};
ghost use Rattle.rv_isa.specs.Listing.{operation, register, address, two, three, text};

use crate::instruction::{BranchOp, ImmOp, Instr, RegOp};
use pl_base::{LoadWidth, NoMemory, StoreWidth};
use std::alloc::{AllocError, Global};

/// The text of an instruction in a listing: the mnemonic, and its operands parted by a comma and a
/// blank. Numbers are decimal, and registers x0 to x31.
pub fn render(alloc: Global, i: &Instr) -> Result<String, NoMemory>
    requires { IsValid i.now }
    ensures { IfOk result (λ shown. string_bytes shown ≡ text i.now) }
{
    Ok(shown(alloc, i)?)
}

fn shown(alloc: Global, i: &Instr) -> Result<String, AllocError>
    ensures { IfOk result (λ shown. string_bytes shown ≡ text i.now) }
{
    let name = mnemonic(i);
    match *i {
        Instr::Lui { rd, imm } | Instr::Auipc { rd, imm } => with_upper(alloc, name, rd, imm),
        Instr::Jal { rd, off } => with_offset(alloc, name, rd, off),
        Instr::Jalr { rd, rs1, imm } => with_address(alloc, name, rd, imm, rs1),
        Instr::Branch { rs1, rs2, off, .. } => with_number(alloc, name, rs1, rs2, off),
        Instr::Load { rd, rs1, imm, .. } => with_address(alloc, name, rd, imm, rs1),
        Instr::Store { rs2, rs1, imm, .. } => with_address(alloc, name, rs2, imm, rs1),
        Instr::OpImm { rd, rs1, imm, .. } => with_number(alloc, name, rd, rs1, imm),
        Instr::Op { rd, rs1, rs2, .. } => with_registers(alloc, name, rd, rs1, rs2),
        Instr::Fence { .. } | Instr::Ecall => String::from_str(alloc, name),
    }
}

fn with_upper(alloc: Global, name: &str, rd: u8, imm: u32) -> Result<String, AllocError>
    ensures { IfOk result (λ shown. string_bytes shown ≡ name.now ++ two (register rd) (decimal imm)) }
{
    format!(in alloc; "{name} x{rd}, {imm}")
}

fn with_offset(alloc: Global, name: &str, rd: u8, off: i32) -> Result<String, AllocError>
    ensures { IfOk result (λ shown. string_bytes shown ≡ name.now ++ two (register rd) (signed_decimal off)) }
{
    format!(in alloc; "{name} x{rd}, {off}")
}

fn with_address(
    alloc: Global,
    name: &str,
    moved: u8,
    imm: i32,
    base: u8,
) -> Result<String, AllocError>
    ensures { IfOk result (λ shown. string_bytes shown ≡ name.now ++ two (register moved) (address imm base)) }
{
    format!(in alloc; "{name} x{moved}, {imm}(x{base})")
}

fn with_number(
    alloc: Global,
    name: &str,
    first: u8,
    second: u8,
    number: i32,
) -> Result<String, AllocError>
    ensures { IfOk result (λ shown. string_bytes shown
        ≡ name.now ++ three (register first) (register second) (signed_decimal number)) }
{
    format!(in alloc; "{name} x{first}, x{second}, {number}")
}

fn with_registers(alloc: Global, name: &str, rd: u8, rs1: u8, rs2: u8) -> Result<String, AllocError>
    ensures { IfOk result (λ shown. string_bytes shown
        ≡ name.now ++ three (register rd) (register rs1) (register rs2)) }
{
    format!(in alloc; "{name} x{rd}, x{rs1}, x{rs2}")
}

fn mnemonic(i: &Instr) -> &'static str
    ensures { result.now ≡ (row (operation i.now)).mnemonic }
{
    match *i {
        Instr::Lui { .. } => "lui",
        Instr::Auipc { .. } => "auipc",
        Instr::Jal { .. } => "jal",
        Instr::Jalr { .. } => "jalr",
        Instr::Branch { op, .. } => branch_name(op),
        Instr::Load { width, .. } => load_name(width),
        Instr::Store { width, .. } => store_name(width),
        Instr::OpImm { op, .. } => imm_name(op),
        Instr::Op { op, .. } => reg_name(op),
        Instr::Fence { .. } => "fence",
        Instr::Ecall => "ecall",
    }
}

fn branch_name(op: BranchOp) -> &'static str
    ensures { result.now ≡ (row (branch op)).mnemonic }
{
    match op {
        BranchOp::Beq => "beq",
        BranchOp::Bne => "bne",
        BranchOp::Blt => "blt",
        BranchOp::Bge => "bge",
        BranchOp::Bltu => "bltu",
        BranchOp::Bgeu => "bgeu",
    }
}

fn load_name(width: LoadWidth) -> &'static str
    ensures { result.now ≡ (row (load width)).mnemonic }
{
    match width {
        LoadWidth::B => "lb",
        LoadWidth::H => "lh",
        LoadWidth::W => "lw",
        LoadWidth::Bu => "lbu",
        LoadWidth::Hu => "lhu",
    }
}

fn store_name(width: StoreWidth) -> &'static str
    ensures { result.now ≡ (row (store width)).mnemonic }
{
    match width {
        StoreWidth::B => "sb",
        StoreWidth::H => "sh",
        StoreWidth::W => "sw",
    }
}

fn imm_name(op: ImmOp) -> &'static str
    ensures { result.now ≡ (row (op_imm op)).mnemonic }
{
    match op {
        ImmOp::Addi => "addi",
        ImmOp::Slti => "slti",
        ImmOp::Sltiu => "sltiu",
        ImmOp::Xori => "xori",
        ImmOp::Ori => "ori",
        ImmOp::Andi => "andi",
        ImmOp::Slli => "slli",
        ImmOp::Srli => "srli",
        ImmOp::Srai => "srai",
    }
}

fn reg_name(operation: RegOp) -> &'static str
    ensures { result.now ≡ (row (op operation)).mnemonic }
{
    match operation {
        RegOp::Add => "add",
        RegOp::Sub => "sub",
        RegOp::Sll => "sll",
        RegOp::Slt => "slt",
        RegOp::Sltu => "sltu",
        RegOp::Xor => "xor",
        RegOp::Srl => "srl",
        RegOp::Sra => "sra",
        RegOp::Or => "or",
        RegOp::And => "and",
        RegOp::Mul => "mul",
        RegOp::Mulh => "mulh",
        RegOp::Mulhsu => "mulhsu",
        RegOp::Mulhu => "mulhu",
        RegOp::Div => "div",
        RegOp::Divu => "divu",
        RegOp::Rem => "rem",
        RegOp::Remu => "remu",
    }
}
