//! A job, of whose run the recorded log is known to be there.
ghost use Rattle.std.specs.Prelude.{◌≡◌};
ghost use Rattle.core_sim.specs.Valid.{IsValidJob};
ghost use Rattle.run_log.specs.Logs.{HasLog, HasOneLog};

use core_sim::Job;
use run_log::run_logs;
use run_record::recorded_runs;

/// A job whose run has a recorded log, and only one.
#[derive(Clone, Copy)]
pub(crate) struct RunOf<'a> {
    pub(crate) job: &'a Job,
    ghost one: { HasOneLog job.now },
    ghost there: { ∥ HasLog job.now ∥₁ },
}

impl<'a> RunOf<'a> {
    /// The run of this job.
    pub(crate) fn new(job: &'a Job) -> RunOf<'a>
        requires { IsValidJob job.now }
        ensures { result.job.now ≡ job.now }
    {
        recorded_runs();
        run_logs();
        RunOf { job }
    }
}
