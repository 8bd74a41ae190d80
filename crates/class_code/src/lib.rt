//! The code of a class set, decoded for the frames that run it.
#![tactic(auto)]

mod arguments;
mod class_laws;
mod classes;
mod declared;
mod decoded;
mod decoding;
mod fields;
mod file_methods;
mod finding;
mod firsts;
mod handlers;
mod indices;
mod instructions;
mod laws;
mod longs;
mod made;
mod names;
mod native_methods;
mod operand;
mod operands;
mod pool_operands;
mod program;
mod refusal;
mod resolving;
mod selectors;
mod signatures;
mod sites;
mod switches;

pub use class_laws::{
    accepted_sets_have_room, calls_find_own_methods_first, programs_are_their_sets,
    programs_name_what_is_there,
};
pub use laws::{
    a_small_set_is_decoded, classes_are_those_of_the_set, instructions_are_decoded,
    jumps_lead_where_the_file_says, methods_stand_where_their_code_does,
    numbers_lead_to_their_rows,
};
pub use native_methods::NativeMethods;
pub use program::decode;
pub use refusal::DecodeRefusal;
