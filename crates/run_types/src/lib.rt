//! The types by which layers speak of a run: its faults and limits, what threads wait for, what instructions
//! name. They stand apart from `ap_base`, so that a further one leaves the lowest crate as it is.
#![tactic(auto)]

mod fault;
mod key;
mod known;
mod limits;
mod resolved;
mod wait;

pub use fault::{Full, LinkKind, RunFault, StepFault, Which};
pub use key::Key;
pub use known::Known;
pub use limits::Limits;
pub use resolved::{At, FieldAt, MethodAt};
pub use wait::{On, Waits};
