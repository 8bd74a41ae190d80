// What a step comes to.
use natives::Reply;
use run_history::Op;
use run_types::{On, StepFault};

/// What a step comes to: it did an operation and replies, it waits for another thread, it found a
/// wrong operand, or the run is over
/// by a fault.
#[derive(Drop)]
pub enum Stepped {
    Did { op: Op, reply: Reply },
    Waits(On),
    Wrong,
    Over(StepFault),
}
