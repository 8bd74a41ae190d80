//! The members that a class declares, by name and descriptor.

ghost use Rattle.std.specs.Prelude.{◌≡◌, ◌<◌, ◌≤◌, ◌&&◌, filter, length, map, IfSome};
ghost use Rattle.std.specs.Str.{bytes_eq};
ghost use Rattle.built_in_table.specs.Rows.{member_facts};
ghost use Rattle.class_set.specs.Members.{text_at, is_static_member, field_facts, method_facts};
ghost use Rattle.class_file.specs.declared.field.Field.{Field as FileField};
ghost use Rattle.class_set.specs.Lookups.{find_member};
ghost use Rattle.class_set.specs.Tables.{found_of};

use built_in_table::Member;
use class_file::{ClassFile, Field};
use const_pool::Pool;

/// A member by its place among those that its class declares.
#[derive(Clone, Copy)]
pub(crate) struct Found {
    pub place: usize,
    pub is_static: bool,
}

/// The text at an index, empty where none is there.
pub(crate) fn text_at(pool: &Pool, index: u16) -> &[u8]
    ensures { result.now ≡ text_at pool.now index }
{
    match pool.utf8(index) {
        Some(text) => text.as_slice(),
        None => &[],
    }
}

/// ACC_STATIC (JVMS tables 4.5-A, 4.6-A).
pub(crate) fn is_static(access: u16) -> bool
    ensures { result ≡ is_static_member access }
{
    access & 0x0008 != 0
}

/// Whether the texts at two indices are these.
fn are_texts(pool: &Pool, indices: (u16, u16), name: &[u8], descriptor: &[u8]) -> bool
    ensures { result ≡ (bytes_eq (text_at pool.now indices.0) name.now
        && bytes_eq (text_at pool.now indices.1) descriptor.now) }
{
    text_at(pool, indices.0) == name && text_at(pool, indices.1) == descriptor
}

/// The first method of the file's class with this name and descriptor.
pub(crate) fn method_in_file(file: &ClassFile, name: &[u8], descriptor: &[u8]) -> Option<Found>
    ensures found { result
        ≡ found_of (find_member (map (method_facts file.now.pool) file.now.methods) name.now descriptor.now) }
    ensures within { IfSome result (λ found. found.place < length file.now.methods) }
{
    for (place, method) in file.methods.as_slice().iter().enumerate() {
        if are_texts(
            &file.pool,
            (method.name, method.descriptor),
            name,
            descriptor,
        ) {
            return Some(Found {
                place,
                is_static: is_static(method.access),
            });
        }
    }
    None
}

/// The first field of the file's class with this name and descriptor.
pub(crate) fn field_in_file(file: &ClassFile, name: &[u8], descriptor: &[u8]) -> Option<Found>
    ensures found { result
        ≡ found_of (find_member (map (field_facts file.now.pool) file.now.fields) name.now descriptor.now) }
    ensures within { IfSome result (λ found. found.place < length file.now.fields) }
{
    for (place, field) in file.fields.as_slice().iter().enumerate() {
        if are_texts(&file.pool, (field.name, field.descriptor), name, descriptor) {
            return Some(Found {
                place,
                is_static: is_static(field.access),
            });
        }
    }
    None
}

/// How many of these fields are static.
pub(crate) fn count_statics(fields: &[Field]) -> usize
    ensures count { result ≡ length (filter
        (λ (f : FileField). is_static_member f.access) fields.now) }
    ensures bound { result ≤ length fields.now }
{
    let mut count = 0;
    for field in fields {
        if is_static(field.access) {
            count += 1;
        }
    }
    count
}

/// The first of the members of a built-in class with this name and descriptor.
pub(crate) fn member_in(members: &[Member], name: &[u8], descriptor: &[u8]) -> Option<Found>
    ensures found { result
        ≡ found_of (find_member (map member_facts members.now) name.now descriptor.now) }
    ensures within { IfSome result (λ found. found.place < length members.now) }
{
    for (place, member) in members.iter().enumerate() {
        if member.name == name && member.descriptor == descriptor {
            return Some(Found {
                place,
                is_static: member.is_static,
            });
        }
    }
    None
}
