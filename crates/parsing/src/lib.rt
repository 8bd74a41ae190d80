//! Parsing from front to back, and what parsers and writers of big-endian formats have in common.
#![tactic(auto)]

mod cut;
mod reader;
mod writing;

pub use cut::Cut;
pub use reader::Reader;
pub use writing::{put_u16, put_u32, put_u64};
