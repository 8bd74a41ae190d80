// A monitor that a thread holds.
use ap_base::ThreadNo;
use run_types::Key;

/// A monitor that a thread holds: its key, its owner, and how often the owner has entered it (JVMS
/// 2.11.10).
#[derive(Clone, Copy, Debug)]
pub struct Monitor {
    pub key: Key,
    pub owner: ThreadNo,
    pub count: u64,
}

/// What becomes of an entry.
#[derive(Clone, Copy, Debug, PartialEq, Eq)]
pub enum Enter {
    /// The thread has entered the monitor once more.
    Taken,
    /// Another thread holds it.
    Held(ThreadNo),
    /// As many others are held as may be.
    Full,
}

/// The thread doesn't hold the monitor.
#[derive(Clone, Copy, Debug, PartialEq, Eq)]
pub struct NotOwner;
