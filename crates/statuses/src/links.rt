// What can't be used, by name.
ghost use Rattle.std.specs.Prelude.{◌≡◌, Some};
ghost use Rattle.const_pool.specs.Pool.{name_and_type_at};
ghost use Rattle.class_links.specs.Names.{class_name};
ghost use Rattle.class_set.specs.ArrayTypes.{class_at};
ghost use Rattle.statuses.specs.Names.{described, entry_text, fault_text, has_code, is_cause, is_lost, is_runnable, lacks_code};
ghost use Rattle.statuses.specs.Names.{member_text, named_text, unnamed, unnamed_text, shortened};

use crate::NameRoom;
use crate::names::class_text;
use crate::room::Texts;
use ap_base::Bytes;
use class_file::ClassFile;
use class_links::class_name;
use class_set::ClassSet;
use const_pool::{Member, Pool};
use run_types::{LinkKind, MethodAt};

const RUN: Texts<'static> = (b"run", b"()V");

const TO_STRING: Texts<'static> = (b"toString", b"()Ljava/lang/String;");

pub(crate) const MAIN: Texts<'static> = (b"main", b"([Ljava/lang/String;)V");

const INITIALISER: Texts<'static> = (b"<clinit>", b"()V");

/// The class that an entry names, or whose member it names.
fn class_at(pool: &Pool, index: u16) -> &[u8]
    ensures { result.now ≡ class_at pool.now index }
{
    if let Some(name) = pool.class_name(index) {
        return name.as_slice();
    }
    match pool.member(index) {
        Some(member) => class_name(pool, member.class),
        None => &[],
    }
}

fn member_name(pool: &Pool, member: Option<Member>, room: NameRoom) -> Bytes
    ensures { result ≡ shortened (member_text pool.now member) }
{
    let Some(member) = member else {
        return room.tell(&[]);
    };
    match pool.name_and_type(member.name_and_type) {
        Some((name, descriptor)) => room.tell_member(
            class_name(pool, member.class),
            Some((name.as_slice(), descriptor.as_slice())),
        ),
        None => room.tell(&[]),
    }
}

/// What an entry names that can't be used.
fn entry_name(kind: LinkKind, pool: &Pool, index: u16, room: NameRoom) -> Bytes
    ensures { result ≡ shortened (entry_text kind pool.now index) }
{
    if let LinkKind::MissingClass = kind {
        return room.tell(class_at(pool, index));
    }
    member_name(pool, pool.member(index), room)
}

fn entry_of_file(kind: LinkKind, file: &ClassFile, index: u32, room: NameRoom) -> Bytes
    ensures { result ≡ shortened (entry_text kind file.now.pool index) }
{
    if index < u32::from(file.pool.len()) {
        entry_name(kind, &file.pool, index as u16, room)
    } else {
        room.tell(&[])
    }
}

fn has_code(file: &ClassFile, method: u32) -> bool
    ensures { result ≡ has_code file.now method }
{
    match file.methods.as_slice().get(method as usize) {
        Some(method) => method.code().is_some(),
        None => false,
    }
}

/// Whether it is a method of a file without code (JVMS 4.7.3).
fn lacks_code(set: &ClassSet, method: MethodAt) -> bool
    ensures { result ≡ lacks_code set.now method }
{
    match set.files().get(method.class as usize) {
        Some(file) => !has_code(file, method.method),
        None => false,
    }
}

/// Whether a look-up that found this gives an object no method for this cause.
fn is_cause(set: &ClassSet, kind: LinkKind, found: Option<MethodAt>) -> bool
    ensures { result ≡ is_cause set.now kind found }
{
    match (kind, found) {
        (LinkKind::MissingMethod, None) => true,
        (LinkKind::StaticMismatch, Some(method)) => method.is_static,
        (LinkKind::NoCode, Some(method)) => lacks_code(set, method),
        _ => false,
    }
}

fn is_lost(set: &ClassSet, kind: LinkKind, class: u32, method: Texts<'_>) -> bool
    ensures { result ≡ is_lost set.now kind class (method.entry.0.now, method.entry.1.now) }
{
    is_cause(set, kind, set.find_method(class, method.0, method.1))
}

fn is_runnable(set: &ClassSet, class: u32) -> bool
    ensures { result ≡ is_runnable set.now class }
{
    set.is_sub(class, set.known().runnable)
}

/// The method that no entry names.
fn unnamed(set: &ClassSet, kind: LinkKind, class: u32) -> Texts<'static>
    ensures { (result.0.now, result.1.now) ≡ unnamed set.now kind class }
{
    if is_runnable(set, class) && is_lost(set, kind, class, RUN) {
        RUN
    } else if is_lost(set, kind, class, TO_STRING) {
        TO_STRING
    } else if is_lost(set, kind, class, MAIN) {
        MAIN
    } else {
        INITIALISER
    }
}

fn unnamed_member(set: &ClassSet, kind: LinkKind, class: u32, room: NameRoom) -> Bytes
    ensures { result ≡ shortened (unnamed_text set.now kind class) }
{
    room.tell_member(class_text(set, class), Some(unnamed(set, kind, class)))
}

fn named_member(set: &ClassSet, kind: LinkKind, class: u32, index: u32, room: NameRoom) -> Bytes
    ensures { result ≡ shortened (named_text set.now kind class index) }
{
    match set.files().get(class as usize) {
        Some(file) => entry_of_file(kind, file, index, room),
        None => room.tell(&[]),
    }
}

/// The name of what can't be used.
pub(crate) fn fault_name(
    set: &ClassSet,
    kind: LinkKind,
    class: u32,
    index: u32,
    room: NameRoom,
) -> Bytes
    ensures { result ≡ shortened (fault_text set.now kind class index) }
{
    if let LinkKind::InitFailed = kind {
        return room.tell(class_text(set, class));
    }
    if index == 0 {
        unnamed_member(set, kind, class, room)
    } else {
        named_member(set, kind, class, index, room)
    }
}
