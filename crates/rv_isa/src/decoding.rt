//! The instruction that a word is.
ghost use Rattle.std.specs.Prelude.{◌≡◌, ◌≤◌, ◌<◌, ◌%◌, ◌^◌, ◌*◌, IsNone, IfSome, ◌↔◌};
ghost use Rattle.std.specs.Option.{option_map};
ghost use Rattle.rv_isa.specs.Fields.{bits, rd_of, rs1_of, rs2_of, signed, immediate, I, S, B, J};
ghost use Rattle.rv_isa.specs.Valid.{IsValid};
ghost use Rattle.rv_isa.specs.Table.{Operation, IsIn, with_fields, row, branch, load, store, op_imm, op, operation_of, instruction_of};

use crate::instruction::{BranchOp, ImmOp, Instr, RegOp};
use pl_base::{LoadWidth, StoreWidth};

/// The instruction that a word is, or None where it is in no row of the instruction set's table:
/// the RISC-V unprivileged specification, "RV32/64G Instruction Set Listings".
pub fn decode(word: u32) -> Option<Instr>
    ensures value { result ≡ instruction_of word }
    ensures row { (o : Operation) → IsIn word o → result ≡ Some (with_fields o word) }
    ensures none { IsNone result ↔ ((o : Operation) → ¬ IsIn word o) }
    ensures valid { IfSome result IsValid }
{
    by_opcode(word)
}

fn by_opcode(word: u32) -> Option<Instr>
    ensures { result ≡ instruction_of word }
{
    match word % 128 {
        0b0110111 => Some(Instr::Lui {
            rd: rd(word),
            imm: word / (1 << 12),
        }),
        0b0010111 => Some(Instr::Auipc {
            rd: rd(word),
            imm: word / (1 << 12),
        }),
        0b1101111 => Some(Instr::Jal {
            rd: rd(word),
            off: immediate_j(word),
        }),
        0b1100111 => jalr(word),
        0b1100011 => branch(word),
        0b0000011 => load(word),
        0b0100011 => store(word),
        0b0010011 => op_imm(word),
        0b0110011 => op(word),
        0b0001111 => fence(word),
        0b1110011 => ecall(word),
        _ => None,
    }
}

fn rd(word: u32) -> u8
    ensures { result ≡ rd_of word }
{
    (word / (1 << 7) % 32) as u8
}

fn rs1(word: u32) -> u8
    ensures { result ≡ rs1_of word }
{
    (word / (1 << 15) % 32) as u8
}

fn rs2(word: u32) -> u8
    ensures { result ≡ rs2_of word }
{
    (word / (1 << 20) % 32) as u8
}

fn funct3(word: u32) -> u32
    ensures { result ≡ bits 12 3 word }
{
    word / (1 << 12) % 8
}

fn funct7(word: u32) -> u32
    ensures { result ≡ bits 25 7 word }
{
    word / (1 << 25)
}

fn signed(value: u32, sign: u32) -> i32
    requires small { sign ≤ 2 ^ 20 }
    requires below { value < 2 * sign }
    ensures { result ≡ signed sign value }
{
    if value < sign {
        value as i32
    } else {
        value as i32 - 2 * sign as i32
    }
}

fn immediate_i(word: u32) -> i32
    ensures { result ≡ immediate I word }
{
    signed(word / (1 << 20), 1 << 11)
}

fn immediate_s(word: u32) -> i32
    ensures { result ≡ immediate S word }
{
    signed(word / (1 << 25) * 32 + word / (1 << 7) % 32, 1 << 11)
}

fn immediate_b(word: u32) -> i32
    ensures { result ≡ immediate B word }
{
    let high = word / (1 << 31) * (1 << 12) + word / (1 << 7) % 2 * (1 << 11);
    signed(
        high + word / (1 << 25) % 64 * 32 + word / (1 << 8) % 16 * 2,
        1 << 12,
    )
}

fn immediate_j(word: u32) -> i32
    ensures { result ≡ immediate J word }
{
    let high = word / (1 << 31) * (1 << 20) + word / (1 << 12) % 256 * (1 << 12);
    signed(
        high + word / (1 << 20) % 2 * (1 << 11) + word / (1 << 21) % 1024 * 2,
        1 << 20,
    )
}

fn jalr(word: u32) -> Option<Instr>
    requires { word % 128 ≡ 0b1100111 }
    ensures { result ≡ instruction_of word }
{
    match funct3(word) {
        0b000 => Some(Instr::Jalr {
            rd: rd(word),
            rs1: rs1(word),
            imm: immediate_i(word),
        }),
        _ => None,
    }
}

fn branch(word: u32) -> Option<Instr>
    requires { word % 128 ≡ 0b1100011 }
    ensures { result ≡ instruction_of word }
{
    let op = branch_op(word)?;
    Some(Instr::Branch {
        op,
        rs1: rs1(word),
        rs2: rs2(word),
        off: immediate_b(word),
    })
}

fn branch_op(word: u32) -> Option<BranchOp>
    requires { word % 128 ≡ 0b1100011 }
    ensures { option_map branch result ≡ operation_of word }
{
    match funct3(word) {
        0b000 => Some(BranchOp::Beq),
        0b001 => Some(BranchOp::Bne),
        0b100 => Some(BranchOp::Blt),
        0b101 => Some(BranchOp::Bge),
        0b110 => Some(BranchOp::Bltu),
        0b111 => Some(BranchOp::Bgeu),
        _ => None,
    }
}

fn load(word: u32) -> Option<Instr>
    requires { word % 128 ≡ 0b0000011 }
    ensures { result ≡ instruction_of word }
{
    let width = load_width(word)?;
    Some(Instr::Load {
        width,
        rd: rd(word),
        rs1: rs1(word),
        imm: immediate_i(word),
    })
}

fn load_width(word: u32) -> Option<LoadWidth>
    requires { word % 128 ≡ 0b0000011 }
    ensures { option_map load result ≡ operation_of word }
{
    match funct3(word) {
        0b000 => Some(LoadWidth::B),
        0b001 => Some(LoadWidth::H),
        0b010 => Some(LoadWidth::W),
        0b100 => Some(LoadWidth::Bu),
        0b101 => Some(LoadWidth::Hu),
        _ => None,
    }
}

fn store(word: u32) -> Option<Instr>
    requires { word % 128 ≡ 0b0100011 }
    ensures { result ≡ instruction_of word }
{
    let width = store_width(word)?;
    Some(Instr::Store {
        width,
        rs2: rs2(word),
        rs1: rs1(word),
        imm: immediate_s(word),
    })
}

fn store_width(word: u32) -> Option<StoreWidth>
    requires { word % 128 ≡ 0b0100011 }
    ensures { option_map store result ≡ operation_of word }
{
    match funct3(word) {
        0b000 => Some(StoreWidth::B),
        0b001 => Some(StoreWidth::H),
        0b010 => Some(StoreWidth::W),
        _ => None,
    }
}

fn op_imm(word: u32) -> Option<Instr>
    requires { word % 128 ≡ 0b0010011 }
    ensures { result ≡ instruction_of word }
{
    let op = imm_op(word)?;
    Some(Instr::OpImm {
        op,
        rd: rd(word),
        rs1: rs1(word),
        imm: operand(op, word),
    })
}

fn imm_op(word: u32) -> Option<ImmOp>
    requires { word % 128 ≡ 0b0010011 }
    ensures { option_map op_imm result ≡ operation_of word }
{
    match funct3(word) {
        0b000 => Some(ImmOp::Addi),
        0b010 => Some(ImmOp::Slti),
        0b011 => Some(ImmOp::Sltiu),
        0b100 => Some(ImmOp::Xori),
        0b110 => Some(ImmOp::Ori),
        0b111 => Some(ImmOp::Andi),
        0b001 => match funct7(word) {
            0b0000000 => Some(ImmOp::Slli),
            _ => None,
        },
        _ => match funct7(word) {
            0b0000000 => Some(ImmOp::Srli),
            0b0100000 => Some(ImmOp::Srai),
            _ => None,
        },
    }
}

fn operand(op: ImmOp, word: u32) -> i32
    ensures { result ≡ immediate (row (op_imm op)).form word }
{
    match op {
        ImmOp::Slli | ImmOp::Srli | ImmOp::Srai => rs2(word) as i32,
        _ => immediate_i(word),
    }
}

fn op(word: u32) -> Option<Instr>
    requires { word % 128 ≡ 0b0110011 }
    ensures { result ≡ instruction_of word }
{
    let op = reg_op(word)?;
    Some(Instr::Op {
        op,
        rd: rd(word),
        rs1: rs1(word),
        rs2: rs2(word),
    })
}

fn reg_op(word: u32) -> Option<RegOp>
    requires { word % 128 ≡ 0b0110011 }
    ensures { option_map op result ≡ operation_of word }
{
    match funct7(word) {
        0b0000000 => Some(base_op(word)),
        0b0000001 => Some(multiply_op(word)),
        0b0100000 => match funct3(word) {
            0b000 => Some(RegOp::Sub),
            0b101 => Some(RegOp::Sra),
            _ => None,
        },
        _ => None,
    }
}

fn base_op(word: u32) -> RegOp
    requires opcode { word % 128 ≡ 0b0110011 }
    requires funct7 { bits 25 7 word ≡ 0b0000000 }
    ensures { operation_of word ≡ Some (op result) }
{
    match funct3(word) {
        0b000 => RegOp::Add,
        0b001 => RegOp::Sll,
        0b010 => RegOp::Slt,
        0b011 => RegOp::Sltu,
        0b100 => RegOp::Xor,
        0b101 => RegOp::Srl,
        0b110 => RegOp::Or,
        _ => RegOp::And,
    }
}

fn multiply_op(word: u32) -> RegOp
    requires opcode { word % 128 ≡ 0b0110011 }
    requires funct7 { bits 25 7 word ≡ 0b0000001 }
    ensures { operation_of word ≡ Some (op result) }
{
    match funct3(word) {
        0b000 => RegOp::Mul,
        0b001 => RegOp::Mulh,
        0b010 => RegOp::Mulhsu,
        0b011 => RegOp::Mulhu,
        0b100 => RegOp::Div,
        0b101 => RegOp::Divu,
        0b110 => RegOp::Rem,
        _ => RegOp::Remu,
    }
}

fn fence(word: u32) -> Option<Instr>
    requires { word % 128 ≡ 0b0001111 }
    ensures { result ≡ instruction_of word }
{
    match funct3(word) {
        0b000 => Some(Instr::Fence {
            bits: word - 0b0001111,
        }),
        _ => None,
    }
}

fn ecall(word: u32) -> Option<Instr>
    requires { word % 128 ≡ 0b1110011 }
    ensures { result ≡ instruction_of word }
{
    if word == 0b1110011 {
        Some(Instr::Ecall)
    } else {
        None
    }
}
