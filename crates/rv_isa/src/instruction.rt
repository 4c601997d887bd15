//! The instructions of RV32IM.
use pl_base::{LoadWidth, StoreWidth};

/// One instruction of RV32IM with its fields. Registers are numbered from 0 to 31.
///
/// Immediates are the numbers that an assembler shows: bytes for offsets, the 20-bit number for
/// `Lui` and `Auipc`, and the amount for a shift.
#[derive(Clone, Copy, Debug, PartialEq, Eq)]
pub enum Instr {
    /// Load upper immediate; `imm` is bits 31 to 12 of the value. RV32I, "Integer Computational Instructions".
    Lui {
        rd: u8,
        imm: u32,
    },
    /// Add upper immediate to pc; `imm` is bits 31 to 12 of what is added.
    Auipc {
        rd: u8,
        imm: u32,
    },
    /// Jump and link; `off` is an even number of bytes. RV32I, "Control Transfer Instructions".
    Jal {
        rd: u8,
        off: i32,
    },
    /// Jump to a register and link.
    Jalr {
        rd: u8,
        rs1: u8,
        imm: i32,
    },
    /// A conditional branch; `off` is an even number of bytes.
    Branch {
        op: BranchOp,
        rs1: u8,
        rs2: u8,
        off: i32,
    },
    /// A load from `rs1` plus `imm`. RV32I, "Load and Store Instructions".
    Load {
        width: LoadWidth,
        rd: u8,
        rs1: u8,
        imm: i32,
    },
    /// A store of `rs2` to `rs1` plus `imm`.
    Store {
        width: StoreWidth,
        rs2: u8,
        rs1: u8,
        imm: i32,
    },
    /// An operation on a register and an immediate.
    OpImm {
        op: ImmOp,
        rd: u8,
        rs1: u8,
        imm: i32,
    },
    /// An operation on two registers.
    Op {
        op: RegOp,
        rd: u8,
        rs1: u8,
        rs2: u8,
    },
    /// A fence; `bits` are the word's bits other than the opcode's and those of funct3. RV32I,
    /// "Memory Ordering Instructions".
    Fence {
        bits: u32,
    },
    /// A call of the kernel. RV32I, "Environment Call and Breakpoints".
    Ecall,
}

/// The conditions of branches; those that end in `u` compare unsigned.
#[derive(Clone, Copy, Debug, PartialEq, Eq)]
pub enum BranchOp {
    Beq,
    Bne,
    Blt,
    Bge,
    Bltu,
    Bgeu,
}

/// The operations on a register and an immediate.
#[derive(Clone, Copy, Debug, PartialEq, Eq)]
pub enum ImmOp {
    Addi,
    Slti,
    Sltiu,
    Xori,
    Ori,
    Andi,
    Slli,
    Srli,
    Srai,
}

/// The operations on two registers, with those of the M extension.
#[derive(Clone, Copy, Debug, PartialEq, Eq)]
pub enum RegOp {
    Add,
    Sub,
    Sll,
    Slt,
    Sltu,
    Xor,
    Srl,
    Sra,
    Or,
    And,
    Mul,
    Mulh,
    Mulhsu,
    Mulhu,
    Div,
    Divu,
    Rem,
    Remu,
}
