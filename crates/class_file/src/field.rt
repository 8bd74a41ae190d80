//! Fields (JVMS 4.5).

use ap_base::ListOf;
use class_items::Attribute;

/// A field of a class. Indices are those of the class's constant pool.
#[derive(Drop)]
pub struct Field {
    /// The access flags (JVMS table 4.5-A).
    pub access: u16,
    /// The index of the name, which has none of `.`, `;`, `[` and `/`.
    pub name: u16,
    /// The index of the descriptor.
    pub descriptor: u16,
    /// All attributes as they stand in the file.
    pub attributes: ListOf<Attribute>,
    /// The index of the constant with which a static field that is no durable root begins (JVMS 4.7.2).
    pub constant: Option<u16>,
    /// Whether the field is a durable root: an annotation `autopersist/DurableRoot` says so.
    pub root: bool,
    /// Whether an annotation `autopersist/Unrecoverable` says that the image doesn't keep the field.
    pub unrecoverable: bool,
}
