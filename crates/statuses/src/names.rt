// The names of classes and of their methods, by number.
ghost use Rattle.std.specs.Prelude.{◌≡◌, map, slice_get};
ghost use Rattle.std.specs.Option.{option_map};
ghost use Rattle.built_in_table.specs.Members.{built_in_at};
ghost use Rattle.class_set.specs.Members.{text_at, method_facts, own_methods};
ghost use Rattle.statuses.specs.Names.{class_text, method_text, texts_of, shortened};

use crate::NameRoom;
use crate::room::Texts;
use ap_base::Bytes;
use built_in_table::built_in_classes;
use class_file::ClassFile;
use class_set::ClassSet;
use const_pool::Pool;

/// The name of a class or an array type, empty past the last number.
pub(crate) fn class_text(set: &ClassSet, class: u32) -> &[u8]
    ensures { result.now ≡ class_text set.now class }
{
    match set.shape(class) {
        Some(shape) => shape.name.as_slice(),
        None => &[],
    }
}

/// The text at an index, empty where none is there.
fn text_at(pool: &Pool, index: u16) -> &[u8]
    ensures { result.now ≡ text_at pool.now index }
{
    match pool.utf8(index) {
        Some(text) => text.as_slice(),
        None => &[],
    }
}

fn file_method(file: &ClassFile, method: u32) -> Option<Texts<'_>>
    ensures { option_map (λ texts. (texts.0.now, texts.1.now)) result
        ≡ option_map texts_of (slice_get (map (method_facts file.now.pool) file.now.methods) method) }
{
    match file.methods.as_slice().get(method as usize) {
        Some(method) => Some((
            text_at(&file.pool, method.name),
            text_at(&file.pool, method.descriptor),
        )),
        None => None,
    }
}

fn built_in_method(place: usize, method: u32) -> Option<Texts<'static>>
    ensures { option_map (λ texts. (texts.0.now, texts.1.now)) result
        ≡ option_map texts_of (slice_get (built_in_at place).methods method) }
{
    let class = built_in_classes().get(place)?;
    match class.methods.get(method as usize) {
        Some(method) => Some((method.name, method.descriptor)),
        None => None,
    }
}

/// A method by its number among those that its class declares.
fn method_at(set: &ClassSet, class: u32, method: u32) -> Option<Texts<'_>>
    ensures { option_map (λ texts. (texts.0.now, texts.1.now)) result
        ≡ option_map texts_of (slice_get (own_methods set.now class) method) }
{
    let files = set.files();
    match files.get(class as usize) {
        Some(file) => file_method(file, method),
        None => built_in_method(class as usize - files.len(), method),
    }
}

/// The name of a method by its class's number and its own.
pub(crate) fn method_name(set: &ClassSet, class: u32, method: u32, room: NameRoom) -> Bytes
    ensures { result ≡ shortened (method_text set.now class method) }
{
    room.tell_member(class_text(set, class), method_at(set, class, method))
}
