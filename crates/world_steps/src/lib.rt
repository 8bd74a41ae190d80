//! What requests on monitors, threads, classes, regions and the output do to a shared world,
//! whatever heap holds the objects.
#![tactic(auto)]

mod initialisation;
mod locks;
mod printing;
mod regions;
mod threads;

pub use initialisation::{init, init_done};
pub use locks::{enter_class, enter_object, exit_class, exit_object};
pub use printing::print;
pub use regions::{begin, end};
pub use threads::{join, leave, pause, start};
