// Parts of the plain world.
use crate::PlainKey;
use ap_base::ThreadNo;

/// How far the initialisation of a class has come (JVMS 5.5).
#[derive(Clone, Copy, Debug, PartialEq, Eq)]
pub enum Progress {
    Untouched,
    BegunBy(ThreadNo),
    Finished,
}

/// A monitor that a thread holds: its key, its owner, and how often the owner has entered it (JVMS 2.11.10).
#[derive(Clone, Copy, Debug, PartialEq, Eq)]
pub struct Monitor {
    pub key: PlainKey,
    pub owner: ThreadNo,
    pub count: u32,
}
