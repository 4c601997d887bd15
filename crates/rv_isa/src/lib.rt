//! The instructions of RV32IM: words, fields and text.
//!
//! `Instr` has one variant a form of instruction, with the operation as an enum beside the fields.
//! A word is read by its opcode, then by funct3 and funct7, and written by one sum of six fields:
//! opcode, rd, funct3, rs1, rs2 and funct7, between which the bits of an immediate are dealt out.
#![tactic(auto)]

mod decoding;
mod encoding;
mod instruction;
mod listing;
mod range;

pub use decoding::decode;
pub use encoding::encode;
pub use instruction::{BranchOp, ImmOp, Instr, RegOp};
pub use listing::render;
pub use range::valid;
