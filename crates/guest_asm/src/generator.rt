//! Jobs made from a number.
ghost use Rattle.std.specs.Prelude.{◌≡◌, ◌≤◌, ◌<◌, ◌+◌, ◌*◌, ◌++◌, [], map, length, replicate, All, IfOk, OnOk};
ghost use Rattle.std.specs.List.{range_with_len, flat_map};
ghost use Rattle.rv_isa.specs.Valid.{IsValid};
ghost use Rattle.core_sim.specs.Draws.{drawn, drawn_after};
ghost use Rattle.core_sim.specs.Valid.{HasTypedNumbers, IsValidJob};
ghost use Rattle.core_sim.specs.declared.job.Job.{Job};
ghost use Rattle.guest_asm.specs.Jobs.{coded, AreCells};
ghost use Rattle.guest_asm.specs.Generated.{choice, action_at, setup, finish, hart_code, program, entries, IsGenerated};
ghost use Rattle.pl_base.specs.declared.layout.TheConstants.{MAX_TEXT_WORDS};

use crate::action::{A0, A7, S0, S1, action_numbered, add_to, push_action, set_to};
use crate::code::{addi_of, lui_of};
use core_sim::{Bytes, Job, Schedule, Words, next_draw};
use pl_base::NoMemory;
use pl_base::layout::{DATA_START, MAX_STEPS, TEXT_START};
use rv_isa::{Instr, encode};
use std::alloc::{AllocError, Global};

/// How many bytes of data there are.
const DATA_BYTES: usize = 256;

/// How many bytes a hart asks for, for its block.
const ASKED_BYTES: i32 = 64;

/// How many bytes of input there are.
const INPUT_BYTES: u8 = 64;

/// The kernel's call that ends a hart.
const EXIT: i32 = 1;

/// The kernel's call that gives a block.
const ALLOC: i32 = 2;

/// Text that is being drawn.
#[derive(Drop)]
struct Drawing {
    /// The number of the last draw.
    x: u32,
    code: Vec<Instr>,
}

/// One of `count` numbers from 0 on, by the number of a draw.
fn choice(count: u32, x: u32) -> u32
    requires { 0 < count }
    ensures value { result ≡ choice count x }
    ensures below { result < count }
{
    x / 65_536 % count
}

impl Drawing {
    /// Draws an action with its number and puts its instructions at the end.
    fn add_action(&mut self) -> Result<(), AllocError>
        ensures draws { OnOk result (self.new.x ≡ drawn (drawn self.old.x)) }
        ensures code { OnOk result (self.new.code.items ≡ self.old.code.items ++ action_at self.old.x 0) }
    {
        let first = next_draw(self.x);
        let second = next_draw(first);
        self.x = second;
        let action = action_numbered(choice(8, first));
        push_action(&mut self.code, action, choice(64, second))
    }

    /// Draws so many actions and puts their instructions at the end.
    fn add_actions(&mut self, z: u32) -> Result<(), AllocError>
        ensures draws { OnOk result (self.new.x ≡ drawn_after self.old.x (2 * z)) }
        ensures code { OnOk result
            (self.new.code.items ≡ self.old.code.items ++ flat_map (action_at self.old.x) (range_with_len 0 z)) }
    {
        'actions: for done in 0..z {
            self.add_action()?;
        }
        Ok(())
    }

    /// Puts the instructions before a hart's actions at the end: the addresses of data and of a new block.
    fn add_setup(&mut self) -> Result<(), AllocError>
        ensures draws { OnOk result (self.new.x ≡ self.old.x) }
        ensures code { OnOk result (self.new.code.items ≡ self.old.code.items ++ setup) }
    {
        self.code.push(lui_of(S0, DATA_START))?;
        self.code.push(addi_of(S0, DATA_START))?;
        self.code.push(set_to(A7, ALLOC))?;
        self.code.push(set_to(A0, ASKED_BYTES))?;
        self.code.push(Instr::Ecall)?;
        self.code.push(add_to(S1, A0, 0))?;
        Ok(())
    }

    /// Puts the instructions that end a hart at the end.
    fn add_finish(&mut self) -> Result<(), AllocError>
        ensures draws { OnOk result (self.new.x ≡ self.old.x) }
        ensures code { OnOk result (self.new.code.items ≡ self.old.code.items ++ finish) }
    {
        self.code.push(set_to(A7, EXIT))?;
        self.code.push(Instr::Ecall)?;
        Ok(())
    }

    /// Draws the code of a hart with so many actions, and gives the address at which it begins.
    fn add_hart(&mut self, z: u32) -> Result<u32, AllocError>
        requires { length self.old.code.items ≤ MAX_TEXT_WORDS }
        ensures draws { OnOk result (self.new.x ≡ drawn_after self.old.x (2 * z)) }
        ensures code { OnOk result (self.new.code.items ≡ self.old.code.items ++ hart_code self.old.x z) }
        ensures grown { OnOk result (length self.new.code.items ≤ length self.old.code.items + 4 * z + 8) }
        ensures entry { IfOk result (λ entry. entry ≡ TEXT_START + 4 * length self.old.code.items) }
    {
        let entry = TEXT_START + 4 * self.code.len() as u32;
        self.add_setup()?;
        self.add_actions(z)?;
        self.add_finish()?;
        Ok(entry)
    }
}

/// The code of all harts, and the addresses at which they begin.
fn draw(alloc: Global, s: u32, z: u32) -> Result<(Vec<Instr>, [u32; 8]), AllocError>
    requires { z ≤ 1000 }
    ensures code { IfOk result (λ drawing. drawing.0.items ≡ program s z) }
    ensures entries { IfOk result (λ drawing. drawing.1 ≡ entries s z) }
{
    let mut drawing = Drawing {
        x: s,
        code: Vec::new(alloc),
    };
    let first = drawing.add_hart(z)?;
    let second = drawing.add_hart(z)?;
    let third = drawing.add_hart(z)?;
    let fourth = drawing.add_hart(z)?;
    let Drawing { code, .. } = drawing;
    Ok((
        code,
        [
            first, second, third, fourth, TEXT_START, TEXT_START, TEXT_START, TEXT_START,
        ],
    ))
}

/// The words of instructions.
fn words_of(alloc: Global, code: &[Instr]) -> Result<Vec<u32>, AllocError>
    requires { All IsValid code.now }
    ensures { IfOk result (λ words. AreCells (map (λ i. coded i) code.now) words.items) }
{
    let mut words = Vec::new(alloc);
    'code: for instr in code {
        words.push(encode(instr))?;
    }
    Ok(words)
}

/// The bytes 0, 1 and so on, as many as the input has.
fn counting(alloc: Global) -> Result<Vec<u8>, AllocError>
    ensures { IfOk result (λ bytes. bytes.items ≡ range_with_len 0 64) }
{
    let mut bytes = Vec::new(alloc);
    'bytes: for byte in 0..INPUT_BYTES {
        bytes.push(byte)?;
    }
    Ok(bytes)
}

/// The bytes of data.
fn zeros(alloc: Global) -> Result<Vec<u8>, AllocError>
    ensures { IfOk result (λ bytes. bytes.items ≡ replicate 256 0) }
{
    vec![in alloc; 0u8; DATA_BYTES]
}

/// The job that is drawn from the number `s`.
fn job(alloc: Global, s: u32, z: u32) -> Result<Job, NoMemory>
    requires { z ≤ 1000 }
    ensures job { IfOk result (IsGenerated s z) }
    ensures typed { IfOk result HasTypedNumbers }
{
    let (code, entries) = draw(alloc, s, z)?;
    let words = words_of(alloc, code.as_slice())?;
    let data_bytes = zeros(alloc)?;
    let input = counting(alloc)?;
    Ok(Job {
        harts: 4,
        schedule: Schedule::Seed { n: s, q: 5 },
        steps: MAX_STEPS,
        words: Words::from_vec(words),
        data_bytes: Bytes::from_vec(data_bytes),
        input: Bytes::from_vec(input),
        entries,
    })
}

/// The job that is drawn from the number `s`, of four harts with `z` actions each, 1 to 1,000.
///
/// # Errors
///
/// Where no memory was left.
pub fn generate(alloc: Global, s: u32, z: u32) -> Result<Job, NoMemory>
    requires some { 1 ≤ z }
    requires few { z ≤ 1000 }
    ensures job { IfOk result (IsGenerated s z) }
    ensures one { IfOk result (λ job. (other : Job) → IsGenerated s z other → other ≡ job) }
    ensures valid { IfOk result IsValidJob }
{
    job(alloc, s, z)
}
