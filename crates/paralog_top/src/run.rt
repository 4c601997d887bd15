//! `run`: a job run to its end.
ghost use Rattle.std.specs.Prelude.{◌≡◌, ◌≤◌, ◌<◌, ◌^◌, suc, Ok, true, false, length, IfOk, IfErr, OnOk};
ghost use Rattle.core_sim.specs.Valid.{IsValidJob};
ghost use Rattle.guest_asm.specs.Jobs.{HasFault, IfFault};
ghost use Rattle.paralog_top.specs.declared.input.Input.TheVariants as kinds;
ghost use Rattle.paralog_top.specs.Asked.{tells};
ghost use Rattle.paralog_top.specs.Refusals.{IsRefusal, Reads};
ghost use Rattle.paralog_top.specs.Runs.{IsJobTold, IsRunTold, IsRunning, IsRunEnded, ends_of};

use crate::answer::{Answer, Verdict};
use crate::input::read_job_bytes;
use crate::refusal::Refusal;
use crate::run_text::text;
use core_sim::{HartEnd, Job, Machine, StepOut};
use guest_asm::{JobRefused, read_job};
use pl_base::{NoMemory, Source};
use std::alloc::Global;

/// The text of the run of the job that the source has.
pub fn run<S: Source>(alloc: Global, source: &mut S) -> Result<Answer, Refusal>
    ensures ok { let input = tells S.left S.faults source.old source.new in
        IfOk result (λ answer. Reads kinds.Job input
        (λ bytes. IsRunTold bytes answer.text.items × (answer.verdict ≡ Verdict.Clean))) }
    ensures err { let input = tells S.left S.faults source.old source.new in
        IfErr result (IsRefusal kinds.Job input) }
{
    let bytes = match read_job_bytes(alloc, source) {
        Ok(bytes) => bytes,
        Err(refusal) => return Err(refusal),
    };
    match run_told(alloc, &bytes) {
        Ok(text) => Ok(Answer {
            text,
            verdict: Verdict::Clean,
        }),
        Err(refused) => Err(Refusal::of_job(refused)),
    }
}

/// The text of the run of the job that the bytes spell.
fn run_told(alloc: Global, bytes: &[u8]) -> Result<Vec<u8>, JobRefused>
    requires { length bytes.now < 2 ^ 31 }
    ensures ok { IfOk result (λ text. IsRunTold bytes.now text.items) }
    ensures fault { IfFault result (HasFault bytes.now) }
{
    match read_job(alloc, bytes) {
        Ok(job) => Ok(run_job(alloc, &job)?),
        Err(refused) => Err(refused),
    }
}

fn run_job(alloc: Global, job: &Job) -> Result<Vec<u8>, NoMemory>
    requires { IsValidJob job.now }
    ensures { IfOk result (λ text. IsJobTold job.now text.items) }
{
    let mut machine = Machine::new(alloc, job)?;
    run_to_end(&mut machine, job)?;
    tell(alloc, &machine, job)
}

/// Takes steps up to the end of the run.
fn run_to_end(machine: &mut Machine, job: &Job) -> Result<(), NoMemory>
    requires { IsRunning job.now machine.old }
    ensures { OnOk result (IsRunEnded job.now machine.new) }
{
    let mut going = true;
    'steps: while going {
        match step_once(machine, job) {
            Ok(more) => going = more,
            Err(error) => return Err(error),
        }
    }
    Ok(())
}

/// Takes one more step; false at the end of the run.
#[inline]
fn step_once(machine: &mut Machine, job: &Job) -> Result<bool, NoMemory>
    requires { IsRunning job.now machine.old }
    ensures running { result ≡ Ok true → IsRunning job.now machine.new }
    ensures further { result ≡ Ok true → machine.new.steps ≡ suc machine.old.steps }
    ensures within { result ≡ Ok true → machine.new.steps ≤ job.now.steps }
    ensures ended { result ≡ Ok false → IsRunEnded job.now machine.new }
{
    match machine.step() {
        Ok(StepOut::Did(_)) => Ok(true),
        Ok(StepOut::Halted) => Ok(false),
        Ok(StepOut::Limit) => Ok(false),
        Err(error) => Err(error),
    }
}

/// The text of a run that has ended. The machine has as many harts as there are entries at which they began.
fn tell(alloc: Global, machine: &Machine, job: &Job) -> Result<Vec<u8>, NoMemory>
    requires { IsRunEnded job.now machine.now }
    ensures { IfOk result (λ text. IsJobTold job.now text.items) }
{
    let begun = &job.entries[..usize::from(job.harts)];
    let ends = ends(alloc, machine, begun.len() as u8)?;
    text(
        alloc,
        job.harts,
        machine.steps_taken(),
        &ends,
        machine.guest_output(),
    )
}

/// How the harts of a machine stand, by number.
fn ends(alloc: Global, machine: &Machine, harts: u8) -> Result<Vec<HartEnd>, NoMemory>
    requires { length machine.now.harts ≡ harts }
    ensures { IfOk result (λ ends. ends.items ≡ ends_of machine.now.harts) }
{
    let mut list = Vec::new(alloc);
    for hart in 0..harts {
        list.push(machine.outcome(hart))?;
    }
    Ok(list)
}
