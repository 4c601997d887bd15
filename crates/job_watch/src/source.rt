//! A run that is taken step by step, and the lines of its log, one by one.
ghost use Rattle.std.specs.Prelude.{◌≡◌, ℕ, suc, ◌<◌, [], length, IfOk, MatchOption, Ok, true, false};
ghost use Rattle.pl_event.specs.declared.log.Log.{Log};
ghost use Rattle.core_sim.specs.declared.job.Job.{Job};
ghost use Rattle.core_sim.specs.Valid.{IsValidJob};
ghost use Rattle.run_record.specs.Recorded.{IsLogOfRun};
ghost use Rattle.job_watch.specs.Runs.{lines_from};
ghost use Rattle.job_watch.specs.Sources.{IsAt, IsFirst};

use arc_capture::{recorded_events, recorder_lines};
use core_sim::{Job, run_events};
use log_text::log_laws;
use pl_base::NoMemory;
use pl_event::{Fed, Heads, Line};
use run_log::run_logs;
use run_record::{Recording, recorded_runs, recording_lines};
use std::alloc::Global;

/// A run that is recorded, and the lines of its last step, some of which were handed out.
#[derive(Drop)]
pub(crate) struct Source {
    recording: Recording,
    /// How far the harts are before the next line.
    heads: Heads,
    step: Vec<Line>,
    handed: usize,
}

impl Source {
    /// Before the first step of a job.
    pub(crate) fn new(alloc: Global, job: &Job) -> Result<Source, NoMemory>
        requires { IsValidJob job.now }
        ensures { IfOk result (λ source. (log : Log) → IsLogOfRun job.now log →
            IsAt job.now log 0 source.recording source.heads source.step.items source.handed) }
    {
        Ok(Source {
            recording: Recording::new(alloc, job)?,
            heads: Heads::new(),
            step: Vec::new(alloc),
            handed: 0,
        })
    }

    // The next line of the last step.
    fn hand_out(&mut self) -> Fed
        requires run { (job : Job) × (log : Log) × (at : ℕ)
            × IsAt job log at self.old.recording self.old.heads self.old.step.items self.old.handed }
        requires more { self.old.handed < length self.old.step.items }
        ensures first { (job : Job) (log : Log) (at : ℕ) →
            IsAt job log at self.old.recording self.old.heads self.old.step.items self.old.handed →
            IsFirst log at result }
        ensures at { (job : Job) (log : Log) (at : ℕ) →
            IsAt job log at self.old.recording self.old.heads self.old.step.items self.old.handed →
            IsAt job log (suc at) self.new.recording self.new.heads self.new.step.items self.new.handed }
    {
        recorded_runs();
        recording_lines();
        run_logs();
        log_laws();
        let line = self.step[self.handed];
        let fed = self.heads.fed(&line);
        self.heads.pass(&line);
        self.handed += 1;
        fed
    }

    // Takes the next step of the run, once all lines of the last one were handed out; false at the end of the run.
    fn take_step(&mut self) -> Result<bool, NoMemory>
        requires run { (job : Job) × (log : Log) × (at : ℕ)
            × IsAt job log at self.old.recording self.old.heads self.old.step.items self.old.handed }
        requires none { self.old.handed ≡ length self.old.step.items }
        ensures at { (job : Job) (log : Log) (at : ℕ) →
            IsAt job log at self.old.recording self.old.heads self.old.step.items self.old.handed → result ≡ Ok true →
            IsAt job log at self.new.recording self.new.heads self.new.step.items self.new.handed }
        ensures some { result ≡ Ok true → self.new.handed < length self.new.step.items }
        ensures end { (job : Job) (log : Log) (at : ℕ) →
            IsAt job log at self.old.recording self.old.heads self.old.step.items self.old.handed → result ≡ Ok false →
            at ≡ length log.lines }
    {
        run_events();
        recorded_events();
        recorder_lines();
        run_logs();
        match self.recording.next(&mut self.step) {
            Ok(true) => {
                self.handed = 0;
                Ok(true)
            }
            Ok(false) => Ok(false),
            Err(error) => Err(error),
        }
    }

    /// The next line of the run's log, or none at the end of it. It takes a step where no line of the last one is left.
    /// After `NoMemory` there is no next line to be asked for.
    pub(crate) fn next(&mut self) -> Result<Option<Fed>, NoMemory>
        requires run { (job : Job) × (log : Log) × (at : ℕ)
            × IsAt job log at self.old.recording self.old.heads self.old.step.items self.old.handed }
        ensures { (job : Job) (log : Log) (at : ℕ) →
            IsAt job log at self.old.recording self.old.heads self.old.step.items self.old.handed →
            IfOk result (λ next. MatchOption next (lines_from log at ≡ []) (λ fed. IsFirst log at fed
            × IsAt job log (suc at) self.new.recording self.new.heads self.new.step.items self.new.handed)) }
    {
        if self.handed < self.step.len() {
            return Ok(Some(self.hand_out()));
        }
        match self.take_step() {
            Ok(true) => Ok(Some(self.hand_out())),
            Ok(false) => Ok(None),
            Err(error) => Err(error),
        }
    }
}
