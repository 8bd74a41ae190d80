//! What a Code attribute has.

use ap_base::{Bytes, ListOf};
use class_items::Attribute;
use code_form::Placed;

/// An entry of an exception table (JVMS 4.7.3): the instructions that it covers, from `start` up to `end`, the handler, and
/// the index of the class that is caught, 0 for any. All but the last are offsets into the code.
#[derive(Clone, Copy)]
pub struct Handler {
    pub start: u16,
    pub end: u16,
    pub handler: u16,
    pub catch: u16,
}

/// The code of a method (JVMS 4.7.3).
#[derive(Drop)]
pub struct Code {
    /// How many cells the operand stack has at most.
    pub max_stack: u16,
    /// How many cells the local variables take.
    pub max_locals: u16,
    /// The code as it stands in the file: of the instructions' bytes some say nothing, and they are kept here.
    pub bytes: Bytes,
    /// What the bytes say.
    pub instructions: ListOf<Placed>,
    /// The exception table, in order.
    pub handlers: ListOf<Handler>,
    /// Further attributes, whose content is not looked into.
    pub attributes: ListOf<Attribute>,
}
