//! The commands of two images, by the words that ask for them: `compact` and `audit`.
#![tactic(auto)]

mod auditing;
mod compaction;
mod words;

pub use audit_call::Audited;
pub use auditing::audit;
pub use compaction::{Compacted, compact};
