//! The kernel of the guest: memory, heap, input and output.
ghost use Rattle.std.specs.Prelude.{◌≡◌, ◌+◌, ◌*◌, ◌^◌, ◌≤◌, length, vec_len, IfOk, OnOk, OnErr};
ghost use Rattle.guest_mem.specs.Bytes.{AllMapped};
ghost use Rattle.guest_mem.specs.Memory.{bytes};
ghost use Rattle.guest_kernel.specs.Moves.{Appends};
ghost use Rattle.guest_kernel.specs.Calls.{call_of, AsksForMemory, IsAnswer, alloc_call, free_call, map_call, unmap_call, read_call, write_call, failure, moved};
ghost use Rattle.guest_kernel.specs.State.{state_of, started, after};
ghost use Rattle.guest_kernel.specs.Lending.{LendsMemory};
ghost use Rattle.std.specs.Borrow.{sem};

use crate::call::{CallArgs, KernelStep};
use crate::pages::{Pages, map_pages};
use guest_heap::Heap;
use guest_mem::{MapFault, PagedMem};
use pl_base::NoMemory;
use pl_base::layout::{MAX_CALL_BYTES, MAX_OUTPUT_BYTES};
use pl_event::Kind;
use std::alloc::Global;
use std::marker::Model;

/// The answer -1.
const FAILED: u32 = u32::MAX;

/// The kind of a call that changed nothing but a0, which is a constant then.
const NOTHING: Kind = Kind::Im { rd: 10 };

/// The kernel of a run.
#[derive(Drop)]
pub struct Kernel {
    mem: PagedMem,
    heap: Heap,
    input: Vec<u8>,
    taken: usize,
    output: Vec<u8>,
}

impl Model for Kernel {
    ghost use Rattle.std.specs.Prelude.{◌≤◌, ◌^◌, length, drop};
    ghost use Rattle.guest_kernel.specs.Image.{KernelImage};
    ghost use Rattle.pl_base.specs.declared.layout.TheConstants.{MAX_OUTPUT_BYTES};

    ghost Value = { KernelImage };

    ghost view = { λ k. record
        { memory = k.mem; heap = k.heap; input = drop k.taken k.input.items; output = k.output.items } };

    ghost invariant = { λ k. (k.taken ≤ length k.input.items) × (length k.output.items ≤ MAX_OUTPUT_BYTES) };
}

impl Kernel {
    /// A kernel over a memory, with these bytes to come from outside, no live block and no output.
    ///
    /// # Errors
    ///
    /// `NoMemory` where none was left for the heap.
    pub fn new(alloc: Global, mem: PagedMem, input: Vec<u8>) -> Result<Kernel, NoMemory>
        ensures { IfOk result (λ kernel. state_of kernel ≡ started mem input.items) }
    {
        let heap = Heap::new(alloc)?;
        Ok(Kernel {
            mem,
            heap,
            input,
            taken: 0,
            output: Vec::new(alloc),
        })
    }

    /// Does the call of that number; `Ended` exactly for number 1.
    ///
    /// # Errors
    ///
    /// `NoMemory` at an alloc or a free, and at a map or a write that would succeed, where none was left. All is as
    /// before then.
    pub fn call(&mut self, args: CallArgs) -> Result<KernelStep, NoMemory>
        ensures answer { IfOk result (IsAnswer (call_of args.a7) (state_of self.old) args) }
        ensures after { IfOk result (λ step. state_of self.new ≡ after (state_of self.old) step) }
        ensures unchanged { OnErr result (self.new ≡ self.old) }
        ensures memory { OnErr result (AsksForMemory (call_of args.a7) (state_of self.old) args) }
    {
        match args.a7 {
            1 => Ok(KernelStep::Ended { code: args.a0 }),
            2 => self.alloc(args),
            3 => self.free(args),
            4 => self.map(args),
            5 => Ok(self.unmap(args)),
            6 => Ok(self.read(args)),
            7 => self.write(args),
            _ => Ok(failed()),
        }
    }

    /// The memory.
    pub fn mem(&self) -> &PagedMem
        ensures { result.now ≡ self.now.memory }
    {
        &self.mem
    }

    /// The memory, to be changed.
    pub fn mem_mut(&mut self) -> &mut PagedMem
        ensures* writes_back { sem 𝓛 (LendsMemory self.entry result) }
        ensures value { result.now ≡ self.old.memory }
    {
        &mut self.mem
    }

    /// The bytes that went outside, at most 1 MiB.
    pub fn output(&self) -> &[u8]
        ensures value { result.now ≡ self.now.output }
        ensures few { length result.now ≤ MAX_OUTPUT_BYTES }
    {
        &self.output
    }

    /// Takes a block of a0 bytes.
    fn alloc(&mut self, args: CallArgs) -> Result<KernelStep, NoMemory>
        ensures answer { IfOk result (IsAnswer alloc_call (state_of self.old) args) }
        ensures after { IfOk result (λ step. state_of self.new ≡ after (state_of self.old) step) }
        ensures unchanged { OnErr result (self.new ≡ self.old) }
    {
        match self.heap.alloc(args.a0)? {
            Some(addr) => Ok(went(addr, Kind::Al { addr, len: args.a0 })),
            None => Ok(went(0, NOTHING)),
        }
    }

    /// Frees the block that starts at a0.
    fn free(&mut self, args: CallArgs) -> Result<KernelStep, NoMemory>
        ensures answer { IfOk result (IsAnswer free_call (state_of self.old) args) }
        ensures after { IfOk result (λ step. state_of self.new ≡ after (state_of self.old) step) }
        ensures unchanged { OnErr result (self.new ≡ self.old) }
    {
        let addr = args.a0;
        match self.heap.free(addr)? {
            Some(len) => Ok(went(0, Kind::Fr { addr, len })),
            None => Ok(went(FAILED, Kind::Bf { addr })),
        }
    }

    /// Maps a1 pages from address a0 on.
    fn map(&mut self, args: CallArgs) -> Result<KernelStep, NoMemory>
        ensures answer { IfOk result (IsAnswer map_call (state_of self.old) args) }
        ensures after { IfOk result (λ step. state_of self.new ≡ after (state_of self.old) step) }
        ensures unchanged { OnErr result (self.new ≡ self.old) }
        ensures memory { OnErr result (AsksForMemory map_call (state_of self.old) args) }
    {
        let Some(Pages { first: page, count }) = map_pages(args.a0, args.a1) else {
            return Ok(failed());
        };
        match self.mem.map(page, count, false) {
            Ok(()) => Ok(went(0, Kind::Mp { page, count })),
            Err(MapFault::NoMemory) => Err(NoMemory),
            Err(_) => Ok(failed()),
        }
    }

    /// Unmaps a1 pages from address a0 on.
    fn unmap(&mut self, args: CallArgs) -> KernelStep
        ensures answer { IsAnswer unmap_call (state_of self.old) args result }
        ensures after { state_of self.new ≡ after (state_of self.old) result }
    {
        let Some(Pages { first: page, count }) = map_pages(args.a0, args.a1) else {
            return failed();
        };
        match self.mem.unmap(page, count) {
            Ok(()) => went(0, Kind::Um { page, count }),
            Err(_) => failed(),
        }
    }

    /// Moves the next input bytes, at most a2 of them, to a1.
    fn read(&mut self, args: CallArgs) -> KernelStep
        ensures answer { IsAnswer read_call (state_of self.old) args result }
        ensures after { state_of self.new ≡ after (state_of self.old) result }
    {
        if args.a2 > MAX_CALL_BYTES || !self.mem.can_write(args.a1, args.a2) {
            return failed();
        }
        let left = &self.input[self.taken..];
        let count = left.len().min(args.a2 as usize);
        self.mem.fill(args.a1, &left[..count]);
        self.taken += count;
        let len = count as u32;
        moved(len, Kind::Rd { addr: args.a1, len })
    }

    /// Moves a2 bytes from a1 to the output.
    fn write(&mut self, args: CallArgs) -> Result<KernelStep, NoMemory>
        ensures answer { IfOk result (IsAnswer write_call (state_of self.old) args) }
        ensures after { IfOk result (λ step. state_of self.new ≡ after (state_of self.old) step) }
        ensures unchanged { OnErr result (self.new ≡ self.old) }
        ensures memory { OnErr result (AsksForMemory write_call (state_of self.old) args) }
    {
        if args.a2 > MAX_CALL_BYTES || !self.mem.can_read(args.a1, args.a2) {
            return Ok(failed());
        }
        if self.output.len() + args.a2 as usize > MAX_OUTPUT_BYTES as usize {
            return Ok(failed());
        }
        append_bytes(&self.mem, args.a1, args.a2, &mut self.output)?;
        let len = args.a2;
        Ok(moved(len, Kind::Wr { addr: args.a1, len }))
    }
}

/// The hart goes on.
fn went(a0: u32, kind: Kind) -> KernelStep
    ensures { result ≡ KernelStep.Went a0 kind }
{
    KernelStep::Went { a0, kind }
}

/// What a call gives that failed, or that is none.
fn failed() -> KernelStep
    ensures { result ≡ failure }
{
    went(FAILED, NOTHING)
}

/// What a read or a write gives that moved so many bytes, of this kind if there are any.
fn moved(count: u32, kind: Kind) -> KernelStep
    ensures { result ≡ moved count kind }
{
    let kind = if count == 0 { NOTHING } else { kind };
    went(count, kind)
}

/// Appends the bytes from an address on, so many of them and all of them mapped, to a list, which stays where no memory
/// was left.
fn append_bytes(mem: &PagedMem, addr: u32, count: u32, list: &mut Vec<u8>) -> Result<(), NoMemory>
    requires mapped { AllMapped (bytes mem.now) addr count }
    requires few { vec_len list.old + count ≤ 2 * MAX_OUTPUT_BYTES }
    ensures moved { OnOk result (Appends mem.now addr count list.old.items list.new.items) }
    ensures unchanged { OnErr result (list.new.items ≡ list.old.items) }
{
    let before = list.len();
    list.resize(before + count as usize, 0)?;
    match mem.read_bytes(addr, &mut list[before..]) {
        Ok(()) => Ok(()),
        Err(_) => unreachable!(),
    }
}
