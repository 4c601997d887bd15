//! The run of a job, followed by a trail.
ghost use Rattle.std.specs.Prelude.{◌≡◌, ◌≤◌, ◌<◌, ◌+◌, ◌^◌, ℕ, [], suc, Ok, true, false, List, All, length, IfOk, OnOk, slice_index};
ghost use Rattle.core_sim.specs.Valid.{IsValidJob};
ghost use Rattle.whence_trail.specs.declared.happening.Happening.{Happening};
ghost use Rattle.whence_trail.specs.declared.trail.Pair.{Pair};
ghost use Rattle.whence_trail.specs.Answers.{Keeps};
ghost use Rattle.whence_trail.specs.Happenings.{with_events};
ghost use Rattle.whence_text.specs.Answered.{IsJobAnswered};
ghost use Rattle.whence_text.specs.Following.{IsFollowed, IsFollowedWhole, pc_in};

use crate::text::whence_text;
use core_sim::{EventGroup, Job, Machine, StepOut, run_events};
use guest_asm::LinedJob;
use pl_base::NoMemory;
use std::alloc::Global;
use whence_trail::{Pair, Trail};

/// The answers about the run of a job, as a text.
pub fn answer_job(alloc: Global, lined: &LinedJob, pairs: &[Pair]) -> Result<Vec<u8>, NoMemory>
    requires { IsValidJob lined.now.job }
    ensures { IfOk result (λ text. IsJobAnswered pairs.now lined.now text.items) }
{
    let mut machine = Machine::new(alloc, &lined.job)?;
    let mut trail = Trail::new(alloc, pairs)?;
    follow(&mut machine, &mut trail, &lined.job, pairs)?;
    whence_text(alloc, lined, trail.answers())
}

/// Takes steps up to the end of the run.
fn follow(
    machine: &mut Machine,
    trail: &mut Trail,
    job: &Job,
    pairs: &[Pair],
) -> Result<(), NoMemory>
    requires { IsFollowed pairs.now job.now machine.old trail.old }
    ensures { OnOk result (IsFollowedWhole pairs.now job.now trail.new) }
{
    let mut going = true;
    'steps: while going {
        match step_once(machine, trail, job, pairs) {
            Ok(more) => going = more,
            Err(error) => return Err(error),
        }
    }
    Ok(())
}

/// Takes one more step; false at the end of the run.
fn step_once(
    machine: &mut Machine,
    trail: &mut Trail,
    job: &Job,
    pairs: &[Pair],
) -> Result<bool, NoMemory>
    requires { IsFollowed pairs.now job.now machine.old trail.old }
    ensures followed { result ≡ Ok true → IsFollowed pairs.now job.now machine.new trail.new }
    ensures further { result ≡ Ok true → machine.new.steps ≡ suc machine.old.steps }
    ensures within { result ≡ Ok true → machine.new.steps ≤ job.now.steps }
    ensures ended { result ≡ Ok false → IsFollowedWhole pairs.now job.now trail.new }
{
    run_events();
    let pcs = pcs_of(machine);
    match machine.step() {
        Ok(StepOut::Did(events)) => take_events(trail, &events, &pcs),
        Ok(StepOut::Halted) => Ok(false),
        Ok(StepOut::Limit) => Ok(false),
        Err(error) => Err(error),
    }
}

/// The pcs of eight harts.
fn pcs_of(machine: &Machine) -> [u32; 8]
    ensures { (hart : ℕ) → hart < 8 → slice_index result hart ≡ pc_in machine.now.harts hart }
{
    [
        machine.pc(0),
        machine.pc(1),
        machine.pc(2),
        machine.pc(3),
        machine.pc(4),
        machine.pc(5),
        machine.pc(6),
        machine.pc(7),
    ]
}

/// Takes the events of one step, before which the harts had these pcs.
fn take_events(trail: &mut Trail, events: &EventGroup, pcs: &[u32; 8]) -> Result<bool, NoMemory>
    requires { All (λ event. event.hart < 8) events.now }
    ensures more { IfOk result (λ more. more ≡ true) }
    ensures kept { OnOk result ((pairs : List Pair) (before : List Happening)
        → length before + length events.now < 2 ^ 32 → Keeps pairs before trail.old
        → Keeps pairs (with_events (slice_index pcs.now) before events.now) trail.new) }
{
    'each: for place in 0..events.len() {
        let event = events.at(place);
        trail.take(&event, pcs[usize::from(event.hart)])?;
    }
    Ok(true)
}
