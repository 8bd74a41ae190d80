//! Plain heaps, what their references reach, and the graph that their durable roots stand for.
#![tactic(auto)]

mod canonical;
mod heap;
mod laws;
mod numbering;
mod reached;
mod shape;
mod types;

pub use canonical::canon;
pub use laws::{
    breadth_first_row, canon_numbers_breadth_first, canon_row, found_breadth_first,
    new_objects_keep_soundness, one_numbering_only, store_changes_one_place, stores_keep_soundness,
};
pub use reached::reach;
pub use types::{Field, Graph, Heap, NamedValue, Node, Obj, Root, Shape, Value};
