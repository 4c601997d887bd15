//! A step that gives a new hart, and fields that fit no word.

use pl_base::LoadWidth;
use rv_exec::{Effect, HartState, begin, finish_call, finish_load, finish_store};
use rv_isa::{ImmOp, Instr, valid};

#[test]
fn a_step_asks_for_its_load_and_is_finished(rt: HostRuntime) {
    let state = HartState::start(0x1_0000, 0);
    let load = Instr::Load {
        width: LoadWidth::B,
        rd: 5,
        rs1: 2,
        imm: -4,
    };
    let wanted = Effect::Load {
        instr: load,
        addr: 0xf0_3ffc,
    };
    assert_eq!(rt; begin(&state, 0xffc1_0283), wanted);
    assert_eq!(rt; begin(&state, 0x0000_0073), Effect::Call);
    assert_eq!(rt; begin(&state, 0x0010_0073), Effect::Illegal);
    assert_eq!(rt; finish_load(&state, &load, 0x80).reg(5), 0xffff_ff80);
    assert_eq!(rt; finish_store(&state).pc, 0x1_0004);
    assert_eq!(rt; finish_call(&state, 7).reg(10), 7);
}

#[test]
fn fields_out_of_range_are_told(rt: HostRuntime) {
    let shift = Instr::OpImm {
        op: ImmOp::Slli,
        rd: 31,
        rs1: 1,
        imm: 31,
    };
    assert!(rt; valid(&shift));
    assert!(rt; !valid(&Instr::Jal { rd: 1, off: 3 }));
    assert!(rt; !valid(&Instr::Lui { rd: 32, imm: 0 }));
    assert!(rt; !valid(&Instr::Fence { bits: 0x0000_100f }));
}
