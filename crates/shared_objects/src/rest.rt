// What a shared world has beside its objects.
use crate::Threads;
use monitors::Monitors;
use run_history::Progress;

/// What a shared world has beside its objects: the monitors that are held, how far each class is
/// initialised, by its number, and
/// the threads that were started.
#[derive(Drop)]
pub struct Rest {
    pub monitors: Monitors,
    pub classes: Vec<Progress>,
    pub threads: Threads,
}
