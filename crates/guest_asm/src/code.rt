//! Instructions of a text.
ghost use Rattle.std.specs.Prelude.{◌≡◌, ◌<◌, IfSome, pos};
ghost use Rattle.std.specs.Option.{option_map};
ghost use Rattle.rv_isa.specs.Fields.{I, Shift};
ghost use Rattle.rv_isa.specs.Table.{row, op_imm};
ghost use Rattle.rv_isa.specs.Valid.{IsValid, IsWithin};
ghost use Rattle.guest_asm.specs.Codes.{Coded, coded, texts, alone, full_fence, IsValidCode, lui_of, addi_of, upper_part, low_part, constant, branch_code, load_code, store_code, immediate_code, shift_code, register_code, lui_code, auipc_code, jal_code, jalr_code, li_code, la_code, mv_code, j_code, zero_code, bare_code, pseudo_code, other_code, code_of};

use crate::bytes::is_word;
use crate::mnemonic::{
    base_named, branch_named, immediate_named, load_named, multiply_named, shift_named, store_named,
};
use crate::number::{Number, number_in};
use crate::operand::{
    address_in, immediate_in, immediate_of, label_in, register_in, shift_in, upper_in,
};
use pl_base::{LoadWidth, StoreWidth};
use rv_isa::{BranchOp, ImmOp, Instr, RegOp};

/// What an instruction of a text is, but for the address of the label that it names.
#[derive(Clone, Copy)]
pub enum Code {
    /// One instruction.
    One(Instr),
    /// Two instructions, one after the other: `lui` and `addi` of a number.
    Two(Instr, Instr),
    /// `jal` to the label.
    Jump { rd: u8 },
    /// A branch to the label.
    Branch { op: BranchOp, rs1: u8, rs2: u8 },
    /// `lui` and `addi` of the label's address.
    Address { rd: u8 },
}

/// An instruction with the label that it names.
pub type Coded<'a> = (Code, Option<&'a [u8]>);

fn alone<'a>(instr: Instr) -> Option<Coded<'a>>
    requires { IsValid instr }
    ensures value { option_map coded result ≡ Some (alone instr) }
    ensures valid { IfSome result (λ r. IsValidCode r.0) }
{
    Some((Code::One(instr), None))
}

/// The instruction that sets a register to the upper part of a value.
#[tactic(auto, using(crate::proofs::Constants::upper))]
pub fn lui_of(rd: u8, value: u32) -> Instr
    requires { rd < 32 }
    ensures value { result ≡ lui_of rd value }
    ensures valid { IsValid result }
{
    let imm = ((u64::from(value) + 2048) / 4096 % 0x10_0000) as u32;
    Instr::Lui { rd, imm }
}

fn low_part(value: u32) -> i32
    ensures value { result ≡ low_part value }
    ensures within { IsWithin 11 result }
{
    let low = (value % 4096) as i32;
    if low < 2048 { low } else { low - 4096 }
}

/// The instruction that adds the low part of a value to a register.
pub fn addi_of(rd: u8, value: u32) -> Instr
    requires { rd < 32 }
    ensures value { result ≡ addi_of rd value }
    ensures valid { IsValid result }
{
    let imm = low_part(value);
    Instr::OpImm {
        op: ImmOp::Addi,
        rd,
        rs1: rd,
        imm,
    }
}

#[tactic(auto, unfolding(crate::specs::Codes::branch_code))]
fn branch_code<'a>(op: BranchOp, parts: &[&'a [u8]]) -> Option<Coded<'a>>
    ensures value { option_map coded result ≡ branch_code op (texts parts.now) }
    ensures valid { IfSome result (λ r. IsValidCode r.0) }
{
    let [left, right, place] = parts else {
        return None;
    };
    let rs1 = register_in(left)?;
    let rs2 = register_in(right)?;
    let label = label_in(place)?;
    Some((Code::Branch { op, rs1, rs2 }, Some(label)))
}

#[tactic(auto, unfolding(crate::specs::Codes::load_code))]
fn load_code<'a>(width: LoadWidth, parts: &[&'a [u8]]) -> Option<Coded<'a>>
    ensures value { option_map coded result ≡ load_code width (texts parts.now) }
    ensures valid { IfSome result (λ r. IsValidCode r.0) }
{
    let [register, memory] = parts else {
        return None;
    };
    let rd = register_in(register)?;
    let (imm, rs1) = address_in(memory)?;
    alone(Instr::Load {
        width,
        rd,
        rs1,
        imm,
    })
}

#[tactic(auto, unfolding(crate::specs::Codes::store_code))]
fn store_code<'a>(width: StoreWidth, parts: &[&'a [u8]]) -> Option<Coded<'a>>
    ensures value { option_map coded result ≡ store_code width (texts parts.now) }
    ensures valid { IfSome result (λ r. IsValidCode r.0) }
{
    let [register, memory] = parts else {
        return None;
    };
    let rs2 = register_in(register)?;
    let (imm, rs1) = address_in(memory)?;
    alone(Instr::Store {
        width,
        rs2,
        rs1,
        imm,
    })
}

#[tactic(auto, unfolding(crate::specs::Codes::immediate_code))]
fn immediate_code<'a>(op: ImmOp, parts: &[&'a [u8]]) -> Option<Coded<'a>>
    requires { (row (op_imm op)).form ≡ I }
    ensures value { option_map coded result ≡ immediate_code op (texts parts.now) }
    ensures valid { IfSome result (λ r. IsValidCode r.0) }
{
    let [target, source, number] = parts else {
        return None;
    };
    let rd = register_in(target)?;
    let rs1 = register_in(source)?;
    let imm = immediate_in(number)?;
    alone(Instr::OpImm { op, rd, rs1, imm })
}

#[tactic(auto, unfolding(crate::specs::Codes::shift_code))]
fn shift_code<'a>(op: ImmOp, parts: &[&'a [u8]]) -> Option<Coded<'a>>
    requires { (row (op_imm op)).form ≡ Shift }
    ensures value { option_map coded result ≡ shift_code op (texts parts.now) }
    ensures valid { IfSome result (λ r. IsValidCode r.0) }
{
    let [target, source, amount] = parts else {
        return None;
    };
    let rd = register_in(target)?;
    let rs1 = register_in(source)?;
    let imm = shift_in(amount)?;
    alone(Instr::OpImm { op, rd, rs1, imm })
}

#[tactic(auto, unfolding(crate::specs::Codes::register_code))]
fn register_code<'a>(op: RegOp, parts: &[&'a [u8]]) -> Option<Coded<'a>>
    ensures value { option_map coded result ≡ register_code op (texts parts.now) }
    ensures valid { IfSome result (λ r. IsValidCode r.0) }
{
    let [target, left, right] = parts else {
        return None;
    };
    let rd = register_in(target)?;
    let rs1 = register_in(left)?;
    let rs2 = register_in(right)?;
    alone(Instr::Op { op, rd, rs1, rs2 })
}

#[tactic(auto, unfolding(crate::specs::Codes::lui_code))]
fn lui_code<'a>(parts: &[&'a [u8]]) -> Option<Coded<'a>>
    ensures value { option_map coded result ≡ lui_code (texts parts.now) }
    ensures valid { IfSome result (λ r. IsValidCode r.0) }
{
    let [target, number] = parts else {
        return None;
    };
    let rd = register_in(target)?;
    let imm = upper_in(number)?;
    alone(Instr::Lui { rd, imm })
}

#[tactic(auto, unfolding(crate::specs::Codes::auipc_code))]
fn auipc_code<'a>(parts: &[&'a [u8]]) -> Option<Coded<'a>>
    ensures value { option_map coded result ≡ auipc_code (texts parts.now) }
    ensures valid { IfSome result (λ r. IsValidCode r.0) }
{
    let [target, number] = parts else {
        return None;
    };
    let rd = register_in(target)?;
    let imm = upper_in(number)?;
    alone(Instr::Auipc { rd, imm })
}

#[tactic(auto, unfolding(crate::specs::Codes::jal_code))]
fn jal_code<'a>(parts: &[&'a [u8]]) -> Option<Coded<'a>>
    ensures value { option_map coded result ≡ jal_code (texts parts.now) }
    ensures valid { IfSome result (λ r. IsValidCode r.0) }
{
    let [link, place] = parts else {
        return None;
    };
    let rd = register_in(link)?;
    let label = label_in(place)?;
    Some((Code::Jump { rd }, Some(label)))
}

#[tactic(auto, unfolding(crate::specs::Codes::jalr_code))]
fn jalr_code<'a>(parts: &[&'a [u8]]) -> Option<Coded<'a>>
    ensures value { option_map coded result ≡ jalr_code (texts parts.now) }
    ensures valid { IfSome result (λ r. IsValidCode r.0) }
{
    let [link, memory] = parts else {
        return None;
    };
    let rd = register_in(link)?;
    let (imm, rs1) = address_in(memory)?;
    alone(Instr::Jalr { rd, rs1, imm })
}

#[tactic(auto, unfolding(crate::specs::Codes::constant))]
fn constant(rd: u8, number: Number) -> Code
    requires { rd < 32 }
    ensures value { result ≡ constant rd number }
    ensures valid { IsValidCode result }
{
    match immediate_of(number) {
        Some(imm) => Code::One(Instr::OpImm {
            op: ImmOp::Addi,
            rd,
            rs1: 0,
            imm,
        }),
        None => Code::Two(lui_of(rd, number.bits), addi_of(rd, number.bits)),
    }
}

#[tactic(auto, unfolding(crate::specs::Codes::li_code))]
fn li_code<'a>(parts: &[&'a [u8]]) -> Option<Coded<'a>>
    ensures value { option_map coded result ≡ li_code (texts parts.now) }
    ensures valid { IfSome result (λ r. IsValidCode r.0) }
{
    let [target, value] = parts else {
        return None;
    };
    let rd = register_in(target)?;
    let number = number_in(value)?;
    Some((constant(rd, number), None))
}

#[tactic(auto, unfolding(crate::specs::Codes::la_code))]
fn la_code<'a>(parts: &[&'a [u8]]) -> Option<Coded<'a>>
    ensures value { option_map coded result ≡ la_code (texts parts.now) }
    ensures valid { IfSome result (λ r. IsValidCode r.0) }
{
    let [target, place] = parts else {
        return None;
    };
    let rd = register_in(target)?;
    let label = label_in(place)?;
    Some((Code::Address { rd }, Some(label)))
}

#[tactic(auto, unfolding(crate::specs::Codes::mv_code))]
fn mv_code<'a>(parts: &[&'a [u8]]) -> Option<Coded<'a>>
    ensures value { option_map coded result ≡ mv_code (texts parts.now) }
    ensures valid { IfSome result (λ r. IsValidCode r.0) }
{
    let [target, source] = parts else {
        return None;
    };
    let rd = register_in(target)?;
    let rs1 = register_in(source)?;
    alone(Instr::OpImm {
        op: ImmOp::Addi,
        rd,
        rs1,
        imm: 0,
    })
}

#[tactic(auto, unfolding(crate::specs::Codes::j_code))]
fn j_code<'a>(parts: &[&'a [u8]]) -> Option<Coded<'a>>
    ensures value { option_map coded result ≡ j_code (texts parts.now) }
    ensures valid { IfSome result (λ r. IsValidCode r.0) }
{
    let [place] = parts else {
        return None;
    };
    let label = label_in(place)?;
    Some((Code::Jump { rd: 0 }, Some(label)))
}

#[tactic(auto, unfolding(crate::specs::Codes::zero_code))]
fn zero_code<'a>(op: BranchOp, parts: &[&'a [u8]]) -> Option<Coded<'a>>
    ensures value { option_map coded result ≡ zero_code op (texts parts.now) }
    ensures valid { IfSome result (λ r. IsValidCode r.0) }
{
    let [register, place] = parts else {
        return None;
    };
    let rs1 = register_in(register)?;
    let label = label_in(place)?;
    Some((Code::Branch { op, rs1, rs2: 0 }, Some(label)))
}

#[tactic(auto, unfolding(crate::specs::Codes::bare_code))]
fn bare_code<'a>(instr: Instr, parts: &[&'a [u8]]) -> Option<Coded<'a>>
    requires { IsValid instr }
    ensures value { option_map coded result ≡ bare_code instr (texts parts.now) }
    ensures valid { IfSome result (λ r. IsValidCode r.0) }
{
    if parts.is_empty() { alone(instr) } else { None }
}

#[tactic(auto, unfolding(crate::specs::Codes::pseudo_code))]
fn pseudo_code<'a>(name: &[u8], parts: &[&'a [u8]]) -> Option<Coded<'a>>
    ensures value { option_map coded result ≡ pseudo_code name.now (texts parts.now) }
    ensures valid { IfSome result (λ r. IsValidCode r.0) }
{
    if is_word(name, "li") {
        return li_code(parts);
    }
    if is_word(name, "la") {
        return la_code(parts);
    }
    if is_word(name, "mv") {
        return mv_code(parts);
    }
    if is_word(name, "nop") {
        return bare_code(nop(), parts);
    }
    if is_word(name, "j") {
        return j_code(parts);
    }
    if is_word(name, "ret") {
        return bare_code(ret(), parts);
    }
    if is_word(name, "beqz") {
        return zero_code(BranchOp::Beq, parts);
    }
    if is_word(name, "bnez") {
        return zero_code(BranchOp::Bne, parts);
    }
    None
}

fn nop() -> Instr
    ensures value { result ≡ Instr.OpImm ImmOp.Addi 0 0 (pos 0) }
    ensures valid { IsValid result }
{
    Instr::OpImm {
        op: ImmOp::Addi,
        rd: 0,
        rs1: 0,
        imm: 0,
    }
}

fn ret() -> Instr
    ensures value { result ≡ Instr.Jalr 0 1 (pos 0) }
    ensures valid { IsValid result }
{
    Instr::Jalr {
        rd: 0,
        rs1: 1,
        imm: 0,
    }
}

fn full_fence() -> Instr
    ensures value { result ≡ full_fence }
    ensures valid { IsValid result }
{
    Instr::Fence { bits: 0x0ff0_0000 }
}

#[tactic(auto, unfolding(crate::specs::Codes::other_code))]
fn other_code<'a>(name: &[u8], parts: &[&'a [u8]]) -> Option<Coded<'a>>
    ensures value { option_map coded result ≡ other_code name.now (texts parts.now) }
    ensures valid { IfSome result (λ r. IsValidCode r.0) }
{
    if is_word(name, "lui") {
        return lui_code(parts);
    }
    if is_word(name, "auipc") {
        return auipc_code(parts);
    }
    if is_word(name, "jal") {
        return jal_code(parts);
    }
    if is_word(name, "jalr") {
        return jalr_code(parts);
    }
    if is_word(name, "fence") {
        return bare_code(full_fence(), parts);
    }
    if is_word(name, "ecall") {
        return bare_code(Instr::Ecall, parts);
    }
    pseudo_code(name, parts)
}

/// The instruction of a name with its operands.
#[tactic(auto, unfolding(crate::specs::Codes::code_of))]
pub fn code_of<'a>(name: &[u8], parts: &[&'a [u8]]) -> Option<Coded<'a>>
    ensures value { option_map coded result ≡ code_of name.now (texts parts.now) }
    ensures valid { IfSome result (λ r. IsValidCode r.0) }
{
    if let Some(op) = branch_named(name) {
        return branch_code(op, parts);
    }
    if let Some(width) = load_named(name) {
        return load_code(width, parts);
    }
    if let Some(width) = store_named(name) {
        return store_code(width, parts);
    }
    if let Some(op) = immediate_named(name) {
        return immediate_code(op, parts);
    }
    if let Some(op) = shift_named(name) {
        return shift_code(op, parts);
    }
    if let Some(op) = base_named(name) {
        return register_code(op, parts);
    }
    if let Some(op) = multiply_named(name) {
        return register_code(op, parts);
    }
    other_code(name, parts)
}
