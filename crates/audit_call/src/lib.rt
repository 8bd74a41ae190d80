//! A saved run is audited: its class files, two images and its records are read, and the verdict is printed.
#![tactic(auto)]

mod auditing;
mod judging;
pub mod laws;
mod records;

pub use auditing::{Audited, audit_files};
