//! Making a plan of lists, and what it answers.
ghost use Rattle.std.specs.Prelude.{◌≡◌, ◌<◌, length};
ghost use Rattle.order_core.specs.Course.{course_of};
ghost use Rattle.order_core.specs.Lawful.{IsLawful};
ghost use Rattle.order_core.specs.Lists.{stream_of, listed, HasRecords, HasNeeds};

use crate::course::Op;
use crate::list_plan::ListPlan;
use crate::plan::{Plan, PlanOps};
use crate::record_plan::RecordPlan;
use pl_event::{Arcs, Log, record_hart};

impl ListPlan {
    /// The plan of this log, these opening words, and for each hart these records.
    pub fn new(log: Log, opening: Vec<u64>, streams: Vec<Vec<RecordPlan>>) -> ListPlan
        requires lawful { ∥ IsLawful (course_of (listed log opening.items streams.items)) ∥₁ }
        requires harts { length streams.items ≡ log.harts }
        requires records { HasRecords log streams.items }
        requires needs { HasNeeds log streams.items }
        ensures log { result.log ≡ log }
        ensures opening { result.opening ≡ opening }
        ensures streams { result.streams ≡ streams }
    {
        ListPlan {
            log,
            opening,
            streams,
        }
    }
}

impl Plan for ListPlan {
    ghost planned = { λ plan. listed plan.log plan.opening.items plan.streams.items };

    fn harts(&self) -> u8 {
        self.log.harts
    }

    fn block(&self) -> u8 {
        self.log.block
    }

    ghost lawful = { λ plan. plan.lawful };
}

// The records of a hart.
fn stream<'a>(streams: &'a [Vec<RecordPlan>], hart: u8) -> &'a [RecordPlan]
    requires { hart < length streams.now }
    ensures { result.now ≡ stream_of streams.now hart }
{
    streams[hart as usize].as_slice()
}

impl PlanOps for ListPlan {
    fn len(&self, hart: u8) -> u32 {
        stream(self.streams.as_slice(), hart).len() as u32
    }

    fn op(&self, hart: u8, number: u32, i: u32) -> Option<Op> {
        let records = stream(self.streams.as_slice(), hart);
        records[(number - 1) as usize]
            .operations
            .get(i as usize)
            .copied()
    }

    fn needs(&self, hart: u8, number: u32) -> Arcs {
        stream(self.streams.as_slice(), hart)[(number - 1) as usize].needs
    }

    fn line_hart(&self, i: u32) -> Option<u8> {
        let lines = &self.log.lines;
        if lines.len() <= i as usize {
            return None;
        }
        Some(record_hart(&lines.record(i as usize)))
    }

    fn opening(&self, word: u32) -> Option<u64> {
        self.opening.get(word as usize).copied()
    }
}
