//! The cells of a thread's frames, in memory of a fixed size, and the private instructions on cells alone.
#![tactic(auto)]

mod cell;
mod cells;
mod families;
mod laws;
mod numbers;
mod stack;

pub use cell::{Cell, Did, Reference};
pub use cells::{Cells, Places};
pub use families::{
    binary, branch, branch_on_null, branch_on_two, compare_longs, convert, increment, load, lookup,
    negate, push, push_long, rearrange, shift, store, table_switch,
};
pub use laws::{
    branches_and_locals_follow, kinds_are_checked, longs_are_moved_whole,
    numbers_are_those_of_the_standard,
};
