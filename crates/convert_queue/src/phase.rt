// What a thread does with its queue, and why a group isn't sealed.
use ap_base::ThreadNo;

/// What a thread does with its queue: it copies and forwards its objects, repairs the references in their
/// copies, and writes the copies back.
#[derive(Clone, Copy, Debug, PartialEq, Eq)]
pub enum Phase {
    Copy,
    Repair,
    Flush,
}

/// A group isn't sealed: this is its least member that isn't settled.
#[derive(Clone, Copy)]
pub struct Unready {
    pub thread: ThreadNo,
}
