//! A plan that keeps its records as lists.
ghost use Rattle.std.specs.Prelude.{◌≡◌, length};
ghost use Rattle.order_core.specs.Course.{course_of};
ghost use Rattle.order_core.specs.Lawful.{IsLawful};
ghost use Rattle.order_core.specs.Lists.{listed, HasRecords, HasNeeds};

use crate::record_plan::RecordPlan;
use pl_event::Log;

/// A plan given by lists: for each hart, in order, the operations and the needs of its records.
#[derive(Drop)]
pub struct ListPlan {
    pub(crate) log: Log,
    pub(crate) opening: Vec<u64>,
    pub(crate) streams: Vec<Vec<RecordPlan>>,
    ghost lawful: { ∥ IsLawful (course_of (listed log opening.items streams.items)) ∥₁ },
    ghost harts: { length streams.items ≡ log.harts },
    ghost records: { HasRecords log streams.items },
    ghost needs: { HasNeeds log streams.items },
}
