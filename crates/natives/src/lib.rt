//! What a thread asks of the shared heap, and what the heap replies; and the built-in methods,
//! each the list of its requests.
#![tactic(auto)]

mod beginnings;
mod builders;
mod chars_copy;
mod fields;
mod laws;
mod methods;
mod objects;
mod positions;
mod print_stream;
mod replies;
mod requests;
mod singles;
mod states;
mod string_equality;
mod texts;
mod thread_run;
mod utf8;

pub use laws::{
    methods_make_their_request_lists, request_lists_are_those_of_the_rows,
    texts_are_printed_in_utf8,
};
pub use methods::{Native, native_of};
pub use positions::Called;
pub use requests::{Reply, Request};
pub use states::{NativeState, NativeStep, next_request};
