// What events come to.
use natives::Reply;
use run_types::{On, StepFault};

/// By what an event ends its run.
#[derive(Clone, Copy)]
pub enum Halt {
    /// The thread met a fault.
    Met(StepFault),
    /// It waits, and so does each thread that lives: what each waits for is noted.
    Stuck,
}

/// What an event came to.
#[derive(Drop)]
pub enum Event {
    /// The request is answered so.
    Did(Reply),
    /// A step of persistence was made: the thread asks the same still.
    Micro,
    /// The thread waits for this, and asks the same still.
    WouldWait(On),
    /// The run is over.
    Over(Halt),
}
