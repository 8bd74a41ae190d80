//! The names that the entries of a constant pool give (JVMS 4.4.2).

ghost use Rattle.std.specs.Prelude.{◌≡◌};
ghost use Rattle.std.specs.Option.{option_map};
ghost use Rattle.const_pool.specs.Pool.{entry_at};
ghost use Rattle.class_code.specs.Entries.{named, name_in, member_name, is_fieldref, field_name, method_name};
ghost use Rattle.class_code.specs.Named.{name_of};

use class_links::class_name;
use const_pool::{Entry, Member, Name, Pool};

/// The names of a member.
#[derive(Clone, Copy)]
pub(crate) struct Named<'a> {
    /// That of the class or the array type that is named with it.
    pub class: &'a [u8],
    pub name: &'a Name,
    pub descriptor: &'a Name,
}

fn names_of(pool: &Pool, member: Member) -> Option<Named<'_>>
    ensures { option_map name_of result ≡ named pool.now member }
{
    match pool.name_and_type(member.name_and_type) {
        Some((name, descriptor)) => Some(Named {
            class: class_name(pool, member.class),
            name,
            descriptor,
        }),
        None => None,
    }
}

fn member_name(pool: &Pool, index: u16) -> Option<Named<'_>>
    ensures { option_map name_of result ≡ member_name pool.now index }
{
    match pool.member(index) {
        Some(member) => names_of(pool, member),
        None => None,
    }
}

fn is_fieldref(pool: &Pool, index: u16) -> bool
    ensures { result ≡ is_fieldref (entry_at pool.now index) }
{
    matches!(pool.get(index), Some(Entry::Fieldref(_)))
}

/// The names of the field that an entry names, `None` exactly where it names none.
pub(crate) fn field_name(pool: &Pool, index: u16) -> Option<Named<'_>>
    ensures { option_map name_of result ≡ field_name pool.now index }
{
    if is_fieldref(pool, index) {
        return member_name(pool, index);
    }
    None
}

/// The names of the method that an entry names, `None` exactly where it names none.
pub(crate) fn method_name(pool: &Pool, index: u16) -> Option<Named<'_>>
    ensures { option_map name_of result ≡ method_name pool.now index }
{
    if is_fieldref(pool, index) {
        return None;
    }
    member_name(pool, index)
}
