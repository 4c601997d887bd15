//! The plan of a job's run.
ghost use Rattle.std.specs.Prelude.{◌≡◌};
ghost use Rattle.core_sim.specs.Valid.{IsValidJob};
ghost use Rattle.order_core.specs.Course.{course_of};
ghost use Rattle.order_core.specs.Lawful.{IsLawful};
ghost use Rattle.log_plan.specs.Plans.{plan_of};
ghost use Rattle.job_watch.specs.Runs.{log_of};

use crate::run_of::RunOf;
use core_sim::Job;
use lifeguard::Lifeguard;
use log_text::log_laws;
use order_core::Plan;
use pl_base::layout::BLOCK_BYTES;
use run_record::recorded_runs;

/// The plan of the log that is recorded of a job's run, under a lifeguard.
#[derive(Drop)]
pub struct JobPlan<'a, L: Lifeguard> {
    run: RunOf<'a>,
    guard: L,
    ghost lawful: { ∥ IsLawful (course_of (plan_of (L.rules guard) (log_of run.job.now run.one run.there))) ∥₁ },
}

impl<'a, L: Lifeguard> JobPlan<'a, L> {
    ghost use Rattle.pl_event.specs.declared.log.Log.{Log};
    ghost use Rattle.run_record.specs.Recorded.{IsLogOfRun};

    /// The plan of this job under this lifeguard. It takes no memory, and runs nothing.
    pub fn new(job: &'a Job, guard: L) -> JobPlan<'a, L>
        requires { IsValidJob job.now }
        ensures job { result.run.job.now ≡ job.now }
        ensures guard { result.guard ≡ guard }
        ensures log { (log : Log) → IsLogOfRun job.now log →
            ⟦<JobPlan<'a, L> as Plan>⟧.planned result ≡ plan_of (L.rules guard) log }
    {
        recorded_runs();
        log_laws();
        let run = RunOf::new(job);
        JobPlan { run, guard }
    }

    /// The job.
    pub fn job(&self) -> &Job
        ensures { result.now ≡ self.now.run.job.now }
    {
        self.run.job
    }

    /// The lifeguard.
    pub fn guard(&self) -> L
        ensures { result ≡ self.now.guard }
    {
        self.guard
    }
}

impl<'a, L: Lifeguard> Plan for JobPlan<'a, L> {
    ghost use Rattle.log_plan.specs.Plans.{plan_of};
    ghost use Rattle.job_watch.specs.Runs.{log_of};

    ghost planned = { λ plan. plan_of (L.rules plan.guard) (log_of plan.run.job.now plan.run.one plan.run.there) };

    fn harts(&self) -> u8 {
        self.run.job.harts
    }

    fn block(&self) -> u8 {
        BLOCK_BYTES
    }

    ghost lawful = { λ plan. plan.lawful };
}
