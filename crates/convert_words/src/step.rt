// A step of a conversion.
use ap_base::ThreadNo;

/// What a step of a thread's conversion did, or what it lacks.
#[derive(Clone, Copy)]
pub enum ConvertStep {
    /// claimed the first unclaimed object to which the copied line at the place refers
    Claimed,
    /// copied a line
    CopiedLine,
    /// forwarded an object whose lines are all copied
    Forwarded,
    /// repaired the references of a copied line
    Repaired,
    /// wrote a line back
    WroteBack,
    /// fenced what was written
    Fenced,
    /// made the line resident that the step needs
    Touched,
    /// sealed this set of threads
    Sealed(u64),
    /// no step: it lacks what this thread has to do
    Wait(ThreadNo),
    /// nothing: the object that is to be claimed needs so many lines, and fewer are left
    Full { need: u32, left: u32 },
}
