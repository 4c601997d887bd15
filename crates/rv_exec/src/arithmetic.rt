//! What an operation computes, and when a branch is taken.
ghost use Rattle.std.specs.Prelude.{◌≡◌, ◌^◌, pos, neg_ℤ, ◌*ℤ◌, ◌≤ℤ◌, ◌<ℤ◌};
ghost use Rattle.rv_exec.specs.Meaning.{high, result_of, on_registers, is_taken, extended};

use pl_base::LoadWidth;
use rv_isa::{BranchOp, ImmOp, RegOp};

/// What an operation on two registers gives.
pub(crate) fn operate(op: RegOp, a: u32, b: u32) -> u32
    ensures { result ≡ result_of op a b }
{
    match op {
        RegOp::Add => a.wrapping_add(b),
        RegOp::Sub => a.wrapping_sub(b),
        RegOp::Sll => a.wrapping_shl(b),
        RegOp::Slt => u32::from(a.cast_signed() < b.cast_signed()),
        RegOp::Sltu => u32::from(a < b),
        RegOp::Xor => a ^ b,
        RegOp::Srl => a.wrapping_shr(b),
        RegOp::Sra => a.cast_signed().wrapping_shr(b).cast_unsigned(),
        RegOp::Or => a | b,
        RegOp::And => a & b,
        RegOp::Mul => a.wrapping_mul(b),
        RegOp::Mulh => high(a.cast_signed(), i64::from(b.cast_signed())),
        RegOp::Mulhsu => high(a.cast_signed(), i64::from(b)),
        RegOp::Mulhu => high_unsigned(a, b),
        RegOp::Div => divide(a, b),
        RegOp::Divu => if b == 0 { u32::MAX } else { a / b },
        RegOp::Rem => remainder(a, b),
        RegOp::Remu => if b == 0 { a } else { a % b },
    }
}

/// The operation on registers that an operation on an immediate does.
pub(crate) const fn on_registers(op: ImmOp) -> RegOp
    ensures { result ≡ on_registers op }
{
    match op {
        ImmOp::Addi => RegOp::Add,
        ImmOp::Slti => RegOp::Slt,
        ImmOp::Sltiu => RegOp::Sltu,
        ImmOp::Xori => RegOp::Xor,
        ImmOp::Ori => RegOp::Or,
        ImmOp::Andi => RegOp::And,
        ImmOp::Slli => RegOp::Sll,
        ImmOp::Srli => RegOp::Srl,
        ImmOp::Srai => RegOp::Sra,
    }
}

/// Whether a branch is taken.
pub(crate) fn is_taken(op: BranchOp, a: u32, b: u32) -> bool
    ensures { result ≡ is_taken op a b }
{
    match op {
        BranchOp::Beq => a == b,
        BranchOp::Bne => a != b,
        BranchOp::Blt => a.cast_signed() < b.cast_signed(),
        BranchOp::Bge => a.cast_signed() >= b.cast_signed(),
        BranchOp::Bltu => a < b,
        BranchOp::Bgeu => a >= b,
    }
}

/// What a load writes to its register, from the bytes in little-endian order as one number.
pub(crate) fn extended(width: LoadWidth, raw: u32) -> u32
    ensures { result ≡ extended width raw }
{
    match width {
        LoadWidth::B => i32::from(((raw % (1 << 8)) as u8).cast_signed()).cast_unsigned(),
        LoadWidth::H => i32::from(((raw % (1 << 16)) as u16).cast_signed()).cast_unsigned(),
        LoadWidth::W => raw,
        LoadWidth::Bu => raw % (1 << 8),
        LoadWidth::Hu => raw % (1 << 16),
    }
}

/// The high 32 bits of a product of 64 bits.
fn high(a: i32, b: i64) -> u32
    requires { (neg_ℤ (pos (2 ^ 31)) ≤ℤ b) × (b <ℤ pos (2 ^ 32)) }
    ensures { result ≡ high (a *ℤ b) }
{
    ((i64::from(a) * b).cast_unsigned() / (1 << 32)) as u32
}

fn high_unsigned(a: u32, b: u32) -> u32
    ensures { result ≡ high (pos a *ℤ pos b) }
{
    (u64::from(a) * u64::from(b) / (1 << 32)) as u32
}

/// A quotient rounded to zero; all ones where `b` is 0, and -2^31 again for -2^31 by -1.
fn divide(a: u32, b: u32) -> u32
    ensures { result ≡ result_of RegOp.Div a b }
{
    if b == 0 {
        u32::MAX
    } else {
        a.cast_signed()
            .wrapping_div(b.cast_signed())
            .cast_unsigned()
    }
}

/// The remainder with the dividend's sign; `a` where `b` is 0, and 0 for -2^31 by -1.
fn remainder(a: u32, b: u32) -> u32
    ensures { result ≡ result_of RegOp.Rem a b }
{
    if b == 0 {
        a
    } else {
        a.cast_signed()
            .wrapping_rem(b.cast_signed())
            .cast_unsigned()
    }
}
