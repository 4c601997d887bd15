//! What an instruction asks of the machine, and the kind of its event where it asks nothing.
ghost use Rattle.std.specs.Prelude.{◌≡◌};
ghost use Rattle.core_sim.specs.Doing.{Asks};
ghost use Rattle.core_sim.specs.EventKinds.{is_copy, cancels, of_immediate, of_registers};

use pl_base::{LoadWidth, StoreWidth};
use pl_event::Kind;
use rv_isa::{ImmOp, Instr, RegOp};

/// The fields of a load.
#[derive(Clone, Copy, Debug, PartialEq, Eq)]
pub struct Load {
    pub width: LoadWidth,
    pub rd: u8,
    pub rs1: u8,
    pub imm: i32,
}

/// The fields of a store.
#[derive(Clone, Copy, Debug, PartialEq, Eq)]
pub struct Store {
    pub width: StoreWidth,
    pub rs2: u8,
    pub rs1: u8,
    pub imm: i32,
}

/// What an instruction asks of the machine.
#[derive(Clone, Copy, Debug, PartialEq, Eq)]
pub enum Asked {
    /// Nothing; its event is of this kind.
    Nothing { kind: Kind },
    /// A load from memory.
    Bytes { load: Load },
    /// A store to memory.
    Room { store: Store },
    /// A call of the kernel.
    Call,
}

/// What an instruction asks of the machine.
#[inline]
pub fn asked_by(instr: &Instr) -> Asked
    ensures { Asks instr.now result }
{
    let kind = match *instr {
        Instr::Lui { rd, imm: _ } | Instr::Auipc { rd, imm: _ } | Instr::Jal { rd, off: _ } =>
            Kind::Im { rd },
        Instr::Jalr { rd, rs1, imm: _ } => Kind::Jr { rd, rs: rs1 },
        Instr::Branch {
            op: _,
            rs1,
            rs2,
            off: _,
        } => Kind::Br { r1: rs1, r2: rs2 },
        Instr::OpImm { op, rd, rs1, imm } => of_immediate(op, rd, rs1, imm),
        Instr::Op { op, rd, rs1, rs2 } => of_registers(op, rd, rs1, rs2),
        Instr::Fence { bits: _ } => Kind::Im { rd: 0 },
        Instr::Load {
            width,
            rd,
            rs1,
            imm,
        } => return bytes(width, rd, rs1, imm),
        Instr::Store {
            width,
            rs2,
            rs1,
            imm,
        } => return room(width, rs2, rs1, imm),
        Instr::Ecall => return Asked::Call,
    };
    Asked::Nothing { kind }
}

/// A load of these fields.
#[inline]
fn bytes(width: LoadWidth, rd: u8, rs1: u8, imm: i32) -> Asked
    ensures { Asks (Instr.Load width rd rs1 imm) result }
{
    Asked::Bytes {
        load: Load {
            width,
            rd,
            rs1,
            imm,
        },
    }
}

/// A store of these fields.
#[inline]
fn room(width: StoreWidth, rs2: u8, rs1: u8, imm: i32) -> Asked
    ensures { Asks (Instr.Store width rs2 rs1 imm) result }
{
    Asked::Room {
        store: Store {
            width,
            rs2,
            rs1,
            imm,
        },
    }
}

/// The kind of the event of an operation on an immediate.
fn of_immediate(op: ImmOp, rd: u8, rs1: u8, imm: i32) -> Kind
    ensures { result ≡ of_immediate op rd rs1 imm }
{
    if rs1 == 0 {
        Kind::Im { rd }
    } else if is_copy(op, imm) {
        Kind::Mv { rd, rs: rs1 }
    } else {
        Kind::Op { rd, r1: rs1, r2: 0 }
    }
}

/// The kind of the event of an operation on registers.
fn of_registers(op: RegOp, rd: u8, rs1: u8, rs2: u8) -> Kind
    ensures { result ≡ of_registers op rd rs1 rs2 }
{
    if cancels(op) && rs1 == rs2 {
        Kind::Im { rd }
    } else {
        Kind::Op {
            rd,
            r1: rs1,
            r2: rs2,
        }
    }
}

/// Whether it is the sum with 0, which is a copy.
fn is_copy(op: ImmOp, imm: i32) -> bool
    ensures { result ≡ is_copy op imm }
{
    match op {
        ImmOp::Addi => imm.unsigned_abs() == 0,
        _ => false,
    }
}

/// Whether the operation gives 0 of a register and itself.
fn cancels(op: RegOp) -> bool
    ensures { result ≡ cancels op }
{
    match op {
        RegOp::Xor | RegOp::Sub => true,
        _ => false,
    }
}
