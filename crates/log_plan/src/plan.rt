//! The plan of an ordered log.
ghost use Rattle.std.specs.Prelude.{◌≡◌, ◌<◌, length};
ghost use Rattle.order_core.specs.Course.{course_of};
ghost use Rattle.order_core.specs.Lawful.{IsLawful};
ghost use Rattle.log_plan.specs.Plans.{plan_of};

use lifeguard::Lifeguard;
use log_check::OrderedLog;
use order_core::Plan;

/// The plan of an ordered log under a lifeguard.
#[derive(Drop)]
pub struct LogPlan<'a, L: Lifeguard> {
    log: &'a OrderedLog,
    guard: L,
    ghost lawful: { ∥ IsLawful (course_of (plan_of (L.rules guard) log.now.log)) ∥₁ },
}

impl<'a, L: Lifeguard> LogPlan<'a, L> {
    /// The plan of this log under this lifeguard. The log has fewer than 2^32 - 1 lines.
    pub fn new(log: &'a OrderedLog, l: L) -> LogPlan<'a, L>
        requires few { length log.now.log.lines < 4294967295 }
        ensures log { result.log.now ≡ log.now }
        ensures guard { result.guard ≡ l }
    {
        LogPlan { log, guard: l }
    }

    /// The log.
    pub fn log(&self) -> &OrderedLog
        ensures { result.now ≡ self.now.log.now }
    {
        self.log
    }

    /// The lifeguard.
    pub fn guard(&self) -> L
        ensures { result ≡ self.now.guard }
    {
        self.guard
    }
}

impl<'a, L: Lifeguard> Plan for LogPlan<'a, L> {
    ghost use Rattle.log_plan.specs.Plans.{plan_of};

    ghost planned = { λ plan. plan_of (L.rules plan.guard) plan.log.now.log };

    fn harts(&self) -> u8 {
        self.log.log().harts
    }

    fn block(&self) -> u8 {
        self.log.log().block
    }

    ghost lawful = { λ plan. plan.lawful };
}
