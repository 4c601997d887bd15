//! Mnemonics.
ghost use Rattle.std.specs.Prelude.{◌≡◌, IfSome};
ghost use Rattle.rv_isa.specs.Fields.{I, Shift};
ghost use Rattle.rv_isa.specs.Table.{row, op_imm};
ghost use Rattle.guest_asm.specs.Codes.{branch_named, load_named, store_named, immediate_named, shift_named, base_named, multiply_named};

use crate::bytes::is_word;
use pl_base::{LoadWidth, StoreWidth};
use rv_isa::{BranchOp, ImmOp, RegOp};

/// The condition of a branch's mnemonic.
#[tactic(auto, unfolding(crate::specs::Codes::branch_named))]
pub fn branch_named(name: &[u8]) -> Option<BranchOp>
    ensures { result ≡ branch_named name.now }
{
    if is_word(name, "beq") {
        return Some(BranchOp::Beq);
    }
    if is_word(name, "bne") {
        return Some(BranchOp::Bne);
    }
    if is_word(name, "blt") {
        return Some(BranchOp::Blt);
    }
    if is_word(name, "bge") {
        return Some(BranchOp::Bge);
    }
    if is_word(name, "bltu") {
        return Some(BranchOp::Bltu);
    }
    if is_word(name, "bgeu") {
        return Some(BranchOp::Bgeu);
    }
    None
}

/// The width of a load's mnemonic.
#[tactic(auto, unfolding(crate::specs::Codes::load_named))]
pub fn load_named(name: &[u8]) -> Option<LoadWidth>
    ensures { result ≡ load_named name.now }
{
    if is_word(name, "lb") {
        return Some(LoadWidth::B);
    }
    if is_word(name, "lh") {
        return Some(LoadWidth::H);
    }
    if is_word(name, "lw") {
        return Some(LoadWidth::W);
    }
    if is_word(name, "lbu") {
        return Some(LoadWidth::Bu);
    }
    if is_word(name, "lhu") {
        return Some(LoadWidth::Hu);
    }
    None
}

/// The width of a store's mnemonic.
#[tactic(auto, unfolding(crate::specs::Codes::store_named))]
pub fn store_named(name: &[u8]) -> Option<StoreWidth>
    ensures { result ≡ store_named name.now }
{
    if is_word(name, "sb") {
        return Some(StoreWidth::B);
    }
    if is_word(name, "sh") {
        return Some(StoreWidth::H);
    }
    if is_word(name, "sw") {
        return Some(StoreWidth::W);
    }
    None
}

/// The operation on a register and an immediate that is no shift.
#[tactic(auto, unfolding(crate::specs::Codes::immediate_named))]
pub fn immediate_named(name: &[u8]) -> Option<ImmOp>
    ensures value { result ≡ immediate_named name.now }
    ensures form { IfSome result (λ o. (row (op_imm o)).form ≡ I) }
{
    if is_word(name, "addi") {
        return Some(ImmOp::Addi);
    }
    if is_word(name, "slti") {
        return Some(ImmOp::Slti);
    }
    if is_word(name, "sltiu") {
        return Some(ImmOp::Sltiu);
    }
    if is_word(name, "xori") {
        return Some(ImmOp::Xori);
    }
    if is_word(name, "ori") {
        return Some(ImmOp::Ori);
    }
    if is_word(name, "andi") {
        return Some(ImmOp::Andi);
    }
    None
}

/// The shift by an amount.
#[tactic(auto, unfolding(crate::specs::Codes::shift_named))]
pub fn shift_named(name: &[u8]) -> Option<ImmOp>
    ensures value { result ≡ shift_named name.now }
    ensures form { IfSome result (λ o. (row (op_imm o)).form ≡ Shift) }
{
    if is_word(name, "slli") {
        return Some(ImmOp::Slli);
    }
    if is_word(name, "srli") {
        return Some(ImmOp::Srli);
    }
    if is_word(name, "srai") {
        return Some(ImmOp::Srai);
    }
    None
}

/// The operation on two registers, but for those of the M extension.
#[tactic(auto, unfolding(crate::specs::Codes::base_named))]
pub fn base_named(name: &[u8]) -> Option<RegOp>
    ensures { result ≡ base_named name.now }
{
    if is_word(name, "add") {
        return Some(RegOp::Add);
    }
    if is_word(name, "sll") {
        return Some(RegOp::Sll);
    }
    if is_word(name, "slt") {
        return Some(RegOp::Slt);
    }
    if is_word(name, "sltu") {
        return Some(RegOp::Sltu);
    }
    if is_word(name, "xor") {
        return Some(RegOp::Xor);
    }
    if is_word(name, "srl") {
        return Some(RegOp::Srl);
    }
    if is_word(name, "or") {
        return Some(RegOp::Or);
    }
    if is_word(name, "and") {
        return Some(RegOp::And);
    }
    if is_word(name, "sub") {
        return Some(RegOp::Sub);
    }
    if is_word(name, "sra") {
        return Some(RegOp::Sra);
    }
    None
}

/// The operation of the M extension.
#[tactic(auto, unfolding(crate::specs::Codes::multiply_named))]
pub fn multiply_named(name: &[u8]) -> Option<RegOp>
    ensures { result ≡ multiply_named name.now }
{
    if is_word(name, "mul") {
        return Some(RegOp::Mul);
    }
    if is_word(name, "mulh") {
        return Some(RegOp::Mulh);
    }
    if is_word(name, "mulhsu") {
        return Some(RegOp::Mulhsu);
    }
    if is_word(name, "mulhu") {
        return Some(RegOp::Mulhu);
    }
    if is_word(name, "div") {
        return Some(RegOp::Div);
    }
    if is_word(name, "divu") {
        return Some(RegOp::Divu);
    }
    if is_word(name, "rem") {
        return Some(RegOp::Rem);
    }
    if is_word(name, "remu") {
        return Some(RegOp::Remu);
    }
    None
}
