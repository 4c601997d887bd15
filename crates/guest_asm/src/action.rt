//! What a generated hart does.
ghost use Rattle.std.specs.Prelude.{◌≡◌, ◌<◌, ◌++◌, [], ◌∷◌, OnOk, pos};
ghost use Rattle.guest_asm.specs.Generated.{add_to, set_to, action_numbered, into_data, into_block, instructions_of};

use pl_base::{LoadWidth, StoreWidth};
use rv_isa::{ImmOp, Instr, RegOp};
use std::alloc::AllocError;

/// The register `t0`, that words of data are loaded into.
const T0: u8 = 5;

/// The register `t1`, that bytes of data are loaded into.
const T1: u8 = 6;

/// The register `t2`, that words of the block are loaded into.
const T2: u8 = 7;

/// The register `s0`, with the address of data.
pub const S0: u8 = 8;

/// The register `s1`, with the address of the hart's block.
pub const S1: u8 = 9;

/// The register `a0`, for a call's first argument and its answer.
pub const A0: u8 = 10;

/// The register `a1`, for a call's second argument.
const A1: u8 = 11;

/// The register `a2`, for a call's third argument.
const A2: u8 = 12;

/// The register `a7`, for a call's number.
pub const A7: u8 = 17;

/// The kernel's call that reads the input.
const READ: i32 = 6;

/// What a generated hart does next.
#[derive(Clone, Copy, Debug, PartialEq, Eq)]
pub enum Action {
    /// Loads a word of data into `t0`.
    LoadWord,
    /// Stores `t0` to a word of data.
    StoreWord,
    /// Loads a byte of data into `t1`.
    LoadByte,
    /// Adds `t1` to `t0`.
    Add,
    /// Stores `t1` to a word of the hart's block or after it.
    StoreBlock,
    /// Loads a word of the hart's block, or of what lies after it, into `t2`.
    LoadBlock,
    /// Reads four bytes of the input into a word of data.
    Read,
    /// Sets `t2` to what `t0` and `t1` differ in.
    Xor,
}

/// The actions by their numbers.
const ACTIONS: [Action; 8] = [
    Action::LoadWord,
    Action::StoreWord,
    Action::LoadByte,
    Action::Add,
    Action::StoreBlock,
    Action::LoadBlock,
    Action::Read,
    Action::Xor,
];

/// The action of a number from 0 to 7.
pub fn action_numbered(number: u32) -> Action
    requires { number < 8 }
    ensures { result ≡ action_numbered number }
{
    ACTIONS[number as usize]
}

/// The instruction that sets a register to a register and a number.
pub fn add_to(rd: u8, rs1: u8, imm: i32) -> Instr
    ensures { result ≡ add_to rd rs1 imm }
{
    Instr::OpImm {
        op: ImmOp::Addi,
        rd,
        rs1,
        imm,
    }
}

/// The instruction that sets a register to a number.
pub fn set_to(rd: u8, imm: i32) -> Instr
    ensures { result ≡ set_to rd imm }
{
    add_to(rd, 0, imm)
}

fn load(width: LoadWidth, rd: u8, rs1: u8, imm: i32) -> Instr
    ensures { result ≡ Instr.Load width rd rs1 imm }
{
    Instr::Load {
        width,
        rd,
        rs1,
        imm,
    }
}

fn store_word(rs2: u8, rs1: u8, imm: i32) -> Instr
    ensures { result ≡ Instr.Store StoreWidth.W rs2 rs1 imm }
{
    Instr::Store {
        width: StoreWidth::W,
        rs2,
        rs1,
        imm,
    }
}

fn of_registers(op: RegOp, rd: u8, rs1: u8, rs2: u8) -> Instr
    ensures { result ≡ Instr.Op op rd rs1 rs2 }
{
    Instr::Op { op, rd, rs1, rs2 }
}

/// How many bytes into data a drawn word lies.
fn into_data(k: u32) -> i32
    requires { k < 64 }
    ensures { result ≡ pos (into_data k) }
{
    (4 * k) as i32
}

/// How many bytes after the beginning of a hart's block a drawn word lies, inside it or after it.
fn into_block(k: u32) -> i32
    ensures { result ≡ pos (into_block k) }
{
    (4 * (k % 20)) as i32
}

fn push(code: &mut Vec<Instr>, instr: Instr) -> Result<(), AllocError>
    ensures { OnOk result (code.new.items ≡ code.old.items ++ instr ∷ []) }
{
    code.push(instr)?;
    Ok(())
}

/// The call that reads four bytes of the input to a place in data.
fn push_read(code: &mut Vec<Instr>, k: u32) -> Result<(), AllocError>
    requires { k < 64 }
    ensures { OnOk result (code.new.items ≡ code.old.items ++ instructions_of Action.Read k) }
{
    code.push(set_to(A7, READ))?;
    code.push(add_to(A1, S0, into_data(k)))?;
    code.push(set_to(A2, 4))?;
    code.push(Instr::Ecall)?;
    Ok(())
}

/// The instructions of an action at the end of a hart's code, with a number that names
/// the word of data or of the block.
pub fn push_action(code: &mut Vec<Instr>, action: Action, k: u32) -> Result<(), AllocError>
    requires { k < 64 }
    ensures { OnOk result (code.new.items ≡ code.old.items ++ instructions_of action k) }
{
    match action {
        Action::LoadWord => push(code, load(LoadWidth::W, T0, S0, into_data(k))),
        Action::StoreWord => push(code, store_word(T0, S0, into_data(k))),
        Action::LoadByte => push(code, load(LoadWidth::B, T1, S0, into_data(k))),
        Action::Add => push(code, of_registers(RegOp::Add, T0, T0, T1)),
        Action::StoreBlock => push(code, store_word(T1, S1, into_block(k))),
        Action::LoadBlock => push(code, load(LoadWidth::W, T2, S1, into_block(k))),
        Action::Read => push_read(code, k),
        Action::Xor => push(code, of_registers(RegOp::Xor, T2, T0, T1)),
    }
}
