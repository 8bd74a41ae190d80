//! The steps of an audit: which acts of a history are a plain run, with the rules of persistence.
#![tactic(auto)]

mod steps;

pub use audit_acts::Kept;
pub use steps::Audit;
