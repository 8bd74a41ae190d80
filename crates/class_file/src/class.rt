//! What a class file has (JVMS 4.1).

use crate::field::Field;
use crate::method::Method;
use ap_base::ListOf;
use class_items::Attribute;
use const_pool::Pool;

/// A class file of version 52.0. Indices are those of its constant pool.
#[derive(Drop)]
pub struct ClassFile {
    pub pool: Pool,
    /// The access flags (JVMS table 4.1-B).
    pub access: u16,
    /// The index of the class's own entry, whose name has none of `.`, `;` and `[`.
    pub this_class: u16,
    /// The index of the superclass's entry.
    pub super_class: u16,
    /// The indices of the direct superinterfaces' entries, in order.
    pub interfaces: ListOf<u16>,
    pub fields: ListOf<Field>,
    pub methods: ListOf<Method>,
    /// Further attributes, whose content is not looked into.
    pub attributes: ListOf<Attribute>,
}
