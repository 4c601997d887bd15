//! The operations and the needs of one record.
use crate::course::Op;
use pl_event::Arcs;

/// What a record does, and what it needs of the other harts.
#[derive(Drop)]
pub struct RecordPlan {
    pub operations: Vec<Op>,
    pub needs: Arcs,
}
