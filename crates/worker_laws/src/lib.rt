//! What a worker of one hart keeps from record to record while it leaves reads of loads for later.
//!
//! A run is a plan beside the plain run of its log: the moment before each line has the plain state and the words of
//! the table. What a worker keeps, `Kept`, says of its seat how many writes are performed and what was seen; of each
//! register that its state is known and is the plain mask, or is held, and stands for a load whose reads the seat may
//! still make; of the look-aside that what it finds stays right until something is flushed; and of filter, counts and
//! reports that they are those of the records taken. Each law here is one step of a worker, and says what it keeps.
#![tactic(auto)]

mod accesses;
mod held;
mod laws;
mod records;

pub use accesses::{access_reads, checks_count, frames_found, loads_keep, stores_keep};
pub use held::{held_loads, seat_steps_keep};
pub use laws::{fed_records, plan_is_run, workers_begin_and_end};
pub use records::{alert_events_keep, long_records, notices_keep, plain_records_keep};
