//! The types that every layer speaks of: references and their words, places, threads, kinds, and the traits of
//! the outside with their forms in memory.
#![tactic(auto)]

mod bytes;
mod class_source;
mod gate;
mod kind;
mod list;
mod memory_sink;
mod memory_source;
mod piece;
mod place;
mod reference;
mod sink;
mod source;
mod thread;

pub use bytes::Bytes;
pub use class_source::ClassSource;
pub use gate::{Gate, NoGate};
pub use kind::Kind;
pub use list::ListOf;
pub use memory_sink::MemorySink;
pub use memory_source::MemorySource;
pub use piece::Piece;
pub use place::{Place, Spot};
pub use reference::{Item, Ref, ref_of, word_of};
pub use sink::{Sink, SinkFailed};
pub use source::{MOST_BYTES, NamedBytes, SourceError};
pub use thread::ThreadNo;
