//! A run that is recorded step by step.
ghost use Rattle.std.specs.Prelude.{◌≡◌, ◌≤◌, ◌++◌, suc, [], List, length, IfOk, OnOk, Ok, false, true};
ghost use Rattle.pl_base.specs.declared.layout.TheConstants.{BLOCK_BYTES};
ghost use Rattle.pl_event.specs.declared.event.Event.{Event};
ghost use Rattle.pl_event.specs.declared.log.Line.{Line};
ghost use Rattle.core_sim.specs.declared.job.Job.{Job};
ghost use Rattle.core_sim.specs.Valid.{IsValidJob};

use arc_capture::{Recorder, recorder_lines};
use core_sim::{EventGroup, Job, Machine, StepOut, run_events};
use pl_base::NoMemory;
use pl_base::layout::BLOCK_BYTES;
use pl_event::Line;
use std::alloc::Global;

/// A machine, and the recorder of its events.
#[derive(Drop)]
pub struct Recording {
    machine: Machine,
    recorder: Recorder,
    /// The lines of one event.
    more: Vec<Line>,
}

impl Recording {
    ghost use Rattle.run_record.specs.Recording.{HasLines, IsRecordedWhole, IsRecording, MayFeedAll};

    /// Before the first step of a job.
    pub fn new(alloc: Global, job: &Job) -> Result<Recording, NoMemory>
        requires { IsValidJob job.now }
        ensures { IfOk result (IsRecording job.now []) }
    {
        Ok(Recording {
            machine: Machine::new(alloc, job)?,
            recorder: Recorder::new(alloc, job.harts, BLOCK_BYTES)?,
            more: Vec::new(alloc),
        })
    }

    // The lines of the only event, in place of what `lines` held.
    fn feed_one(&mut self, events: &EventGroup, lines: &mut Vec<Line>) -> Result<(), NoMemory>
        requires feed { (before : List Event) × (made : List Line)
            × MayFeedAll self.old.recorder before made events.now }
        requires one { length events.now ≡ 1 }
        ensures ok { (before : List Event) (made : List Line) → MayFeedAll self.old.recorder before made events.now →
            OnOk result (HasLines self.new.recorder (before ++ events.now) (made ++ lines.new.items)) }
        ensures harts { self.new.recorder.placer.harts ≡ self.old.recorder.placer.harts }
        ensures machine { self.new.machine ≡ self.old.machine }
    {
        self.recorder.feed_into(&events.at(0), lines)
    }

    // The lines of these events, in place of what `lines` held.
    fn feed_all(&mut self, events: &EventGroup, lines: &mut Vec<Line>) -> Result<(), NoMemory>
        requires { (before : List Event) × (made : List Line) × MayFeedAll self.old.recorder before made events.now }
        ensures ok { (before : List Event) (made : List Line) → MayFeedAll self.old.recorder before made events.now →
            OnOk result (HasLines self.new.recorder (before ++ events.now) (made ++ lines.new.items)) }
        ensures harts { self.new.recorder.placer.harts ≡ self.old.recorder.placer.harts }
        ensures machine { self.new.machine ≡ self.old.machine }
    {
        lines.clear();
        'events: for i in 0..events.len() {
            self.recorder.feed_into(&events.at(i), &mut self.more)?;
            lines.extend_from_slice(&self.more)?;
        }
        Ok(())
    }

    // The lines of these events, in place of what `lines` held.
    fn feed(&mut self, events: &EventGroup, lines: &mut Vec<Line>) -> Result<(), NoMemory>
        requires { (before : List Event) × (made : List Line) × MayFeedAll self.old.recorder before made events.now }
        ensures ok { (before : List Event) (made : List Line) → MayFeedAll self.old.recorder before made events.now →
            OnOk result (HasLines self.new.recorder (before ++ events.now) (made ++ lines.new.items)) }
        ensures harts { self.new.recorder.placer.harts ≡ self.old.recorder.placer.harts }
        ensures machine { self.new.machine ≡ self.old.machine }
    {
        if events.len() == 1 {
            self.feed_one(events, lines)
        } else {
            self.feed_all(events, lines)
        }
    }

    /// Takes the next step of the run, and puts the lines of its events in place of what `lines` held; false where the
    /// run has ended. After `NoMemory` there is no next step to be asked for.
    pub fn next(&mut self, lines: &mut Vec<Line>) -> Result<bool, NoMemory>
        requires { (job : Job) × (made : List Line) × IsRecording job made self.old }
        ensures more { (job : Job) (made : List Line) → IsRecording job made self.old → result ≡ Ok true →
            IsRecording job (made ++ lines.new.items) self.new }
        ensures whole { (job : Job) (made : List Line) → IsRecording job made self.old → result ≡ Ok false →
            IsRecordedWhole job made self.new }
        ensures further { result ≡ Ok true → self.new.machine.steps ≡ suc self.old.machine.steps }
        ensures within { (job : Job) (made : List Line) → IsRecording job made self.old → result ≡ Ok true →
            self.new.machine.steps ≤ job.steps }
    {
        run_events();
        recorder_lines();
        match self.machine.step() {
            Ok(StepOut::Did(events)) => {
                self.feed(&events, lines)?;
                Ok(true)
            }
            Ok(StepOut::Halted) => Ok(false),
            Ok(StepOut::Limit) => Ok(false),
            Err(error) => Err(error),
        }
    }

    /// How many steps were taken.
    pub fn steps_taken(&self) -> u32
        ensures { result ≡ self.now.machine.steps }
    {
        self.machine.steps_taken()
    }
}
