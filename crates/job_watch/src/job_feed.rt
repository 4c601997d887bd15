//! The feed of a job's run.
ghost use Rattle.std.specs.Prelude.{◌≡◌, IfOk};
ghost use Rattle.pl_event.specs.declared.log.Log.{Log};
ghost use Rattle.pl_event.specs.Feeds.{feds};
ghost use Rattle.core_sim.specs.Valid.{IsValidJob};
ghost use Rattle.run_record.specs.Recorded.{IsLogOfRun};

use crate::phase::Phase;
use crate::run_of::RunOf;
use crate::source::Source;
use core_sim::Job;
use pl_base::NoMemory;
use pl_event::{Fed, Feed};
use run_log::run_logs;
use std::alloc::Global;
use std::marker::Model;

/// The lines still to come of the log that is recorded of a job's run, each as a worker takes it. The run goes on step
/// by step, as they are asked for.
#[derive(Drop)]
pub struct JobFeed<'a> {
    run: RunOf<'a>,
    source: Source,
    /// How many lines were handed out.
    at: usize,
    phase: Phase,
}

impl<'a> Model for JobFeed<'a> {
    ghost use Rattle.std.specs.Prelude.{List};
    ghost use Rattle.pl_event.specs.declared.fed.Fed.{Fed};
    ghost use Rattle.job_watch.specs.Runs.{lines_from, log_of};
    ghost use Rattle.job_watch.specs.Sources.{IsFeeding};

    ghost Value = { List Fed };

    ghost view = { λ f. lines_from (log_of f.run.job.now f.run.one f.run.there) f.at };

    ghost invariant = { λ f. IsFeeding f.run.job.now f.at f.phase f.source.recording f.source.heads
        f.source.step.items f.source.handed };
}

impl<'a> JobFeed<'a> {
    /// Before the first step of this job. The run is taken as lines are asked for, no step further.
    pub fn new(alloc: Global, job: &'a Job) -> Result<JobFeed<'a>, NoMemory>
        requires { IsValidJob job.now }
        ensures { IfOk result (λ feed. (log : Log) → IsLogOfRun job.now log → feed ≡ feds log.lines) }
    {
        run_logs();
        Ok(JobFeed {
            run: RunOf::new(job),
            source: Source::new(alloc, job)?,
            at: 0,
            phase: Phase::Going,
        })
    }
}

impl<'a> Feed for JobFeed<'a> {
    ghost rest = { λ feed. feed };

    fn next(&mut self) -> Result<Option<Fed>, NoMemory> {
        match self.phase {
            Phase::Going => match self.source.next() {
                Ok(Some(fed)) => {
                    self.at += 1;
                    Ok(Some(fed))
                }
                Ok(None) => {
                    self.phase = Phase::Over;
                    Ok(None)
                }
                Err(error) => {
                    self.phase = Phase::Failed;
                    Err(error)
                }
            },
            Phase::Over => Ok(None),
            Phase::Failed => Err(NoMemory),
        }
    }
}
