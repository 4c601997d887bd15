//! One step of a hart with all its effects.
ghost use Rattle.std.specs.Prelude.{◌≡◌, ◌==◌, ◌%◌, IfOk, OnErr};
ghost use Rattle.pl_base.specs.Widths.{load_bytes, store_bytes};
ghost use Rattle.rv_isa.specs.Valid.{IsValid};
ghost use Rattle.rv_exec.specs.declared.effect.Effect.{Effect};
ghost use Rattle.rv_exec.specs.Meaning.{effect_of};
ghost use Rattle.guest_kernel.specs.State.{state_of};
ghost use Rattle.core_sim.specs.Doing.{did, did_go_on, did_fault, load_of, store_of, Does, DoesEffect};

use crate::asked::{Asked, Load, Store, asked_by};
use crate::hart::{HartEnd, Standing};
use crate::text::Text;
use guest_kernel::{CallArgs, Kernel, KernelStep};
use guest_mem::MemFault;
use pl_base::{FaultCause, LoadWidth, NoMemory, StoreWidth};
use pl_event::Kind;
use rv_exec::{HartState, advance, end_call, end_load, end_store};

/// Takes one step of a hart, and gives the kind of its event. Where memory ran out the kernel and the hart are as
/// before.
#[inline]
pub fn execute(text: &Text, kernel: &mut Kernel, hart: &mut Standing) -> Result<Kind, NoMemory>
    ensures did { IfOk result
        (λ kind. Does text.now (state_of kernel.old) (state_of kernel.new) hart.old.state (did kind hart.new)) }
    ensures kernel { OnErr result (kernel.new ≡ kernel.old) }
    ensures hart { OnErr result (hart.new ≡ hart.old) }
{
    let pc = pc_of(&hart.state);
    let Some(place) = text.place(pc) else {
        return Ok(fault(hart, FaultCause::Pc, pc));
    };
    let Some(instr) = text.instruction(place) else {
        return Ok(fault(hart, FaultCause::Illegal, pc));
    };
    match asked_by(instr) {
        Asked::Nothing { kind } => {
            advance(&mut hart.state, instr);
            Ok(goes_on(hart, kind))
        }
        Asked::Bytes { load } => Ok(do_load(kernel, hart, load)),
        Asked::Room { store } => Ok(do_store(kernel, hart, store)),
        Asked::Call => call(kernel, hart),
    }
}

/// The address of a hart's next instruction.
#[inline]
fn pc_of(state: &HartState) -> u32
    ensures { result ≡ state.now.pc }
{
    state.pc
}

/// The hart goes on.
#[inline]
fn goes_on(hart: &mut Standing, kind: Kind) -> Kind
    ensures { did result hart.new ≡ did_go_on kind hart.old.state }
{
    hart.end = HartEnd::Live;
    kind
}

/// The hart has ended by a fault.
fn fault(hart: &mut Standing, cause: FaultCause, addr: u32) -> Kind
    ensures { did result hart.new ≡ did_fault hart.old.state cause addr }
{
    hart.end = HartEnd::Fault { cause, addr };
    Kind::Ft { cause, addr }
}

/// Does a load.
#[inline]
fn do_load(kernel: &Kernel, hart: &mut Standing, load: Load) -> Kind
    requires { IsValid (load_of load) }
    ensures { DoesEffect (state_of kernel.now) (state_of kernel.now)
        hart.old.state (effect_of hart.old.state (load_of load)) (did result hart.new) }
{
    let addr = hart.state.address(load.rs1, load.imm);
    if !is_load_aligned(load.width, addr) {
        return fault(hart, FaultCause::Align, addr);
    }
    match kernel.mem().read(addr, load.width.bytes()) {
        Ok(raw) => {
            end_load(&mut hart.state, load.width, load.rd, raw);
            let kind = Kind::Ld {
                width: load.width,
                rd: load.rd,
                rb: load.rs1,
                addr,
            };
            goes_on(hart, kind)
        }
        Err(_) => fault(hart, FaultCause::Unmapped, addr),
    }
}

/// Whether an address is a multiple of a load's width.
#[inline]
fn is_load_aligned(width: LoadWidth, addr: u32) -> bool
    ensures { result ≡ (addr % load_bytes width == 0) }
{
    match width {
        LoadWidth::B | LoadWidth::Bu => true,
        LoadWidth::H | LoadWidth::Hu => addr % 2 == 0,
        LoadWidth::W => addr % 4 == 0,
    }
}

/// Does a store of a register's value.
#[inline]
fn do_store(kernel: &mut Kernel, hart: &mut Standing, store: Store) -> Kind
    requires { IsValid (store_of store) }
    ensures { DoesEffect (state_of kernel.old) (state_of kernel.new)
        hart.old.state (effect_of hart.old.state (store_of store)) (did result hart.new) }
{
    let addr = hart.state.address(store.rs1, store.imm);
    let value = hart.state.reg(store.rs2);
    if !is_store_aligned(store.width, addr) {
        return fault(hart, FaultCause::Align, addr);
    }
    match kernel.mem_mut().write(addr, store.width.bytes(), value) {
        Ok(()) => {
            end_store(&mut hart.state);
            let kind = Kind::St {
                width: store.width,
                rv: store.rs2,
                rb: store.rs1,
                addr,
            };
            goes_on(hart, kind)
        }
        Err(MemFault::Unmapped { byte: _ }) => fault(hart, FaultCause::Unmapped, addr),
        Err(MemFault::ReadOnly) => fault(hart, FaultCause::ReadOnly, addr),
    }
}

/// Whether an address is a multiple of a store's width.
#[inline]
fn is_store_aligned(width: StoreWidth, addr: u32) -> bool
    ensures { result ≡ (addr % store_bytes width == 0) }
{
    match width {
        StoreWidth::B => true,
        StoreWidth::H => addr % 2 == 0,
        StoreWidth::W => addr % 4 == 0,
    }
}

/// Calls the kernel.
fn call(kernel: &mut Kernel, hart: &mut Standing) -> Result<Kind, NoMemory>
    ensures did { IfOk result (λ kind. DoesEffect (state_of kernel.old)
        (state_of kernel.new) hart.old.state Effect.Call (did kind hart.new)) }
    ensures kernel { OnErr result (kernel.new ≡ kernel.old) }
    ensures hart { OnErr result (hart.new ≡ hart.old) }
{
    let args = CallArgs {
        a7: hart.state.reg(17),
        a0: hart.state.reg(10),
        a1: hart.state.reg(11),
        a2: hart.state.reg(12),
    };
    match kernel.call(args)? {
        KernelStep::Ended { code } => {
            hart.end = HartEnd::Exit { code };
            Ok(Kind::Ex)
        }
        KernelStep::Went { a0, kind } => {
            end_call(&mut hart.state, a0);
            Ok(goes_on(hart, kind))
        }
    }
}
