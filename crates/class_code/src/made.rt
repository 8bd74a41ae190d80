//! Of which classes there are instances (JVMS 6.5, new).

ghost use Rattle.std.specs.Prelude.{◌≡◌, ◌<◌, List, false, length, slice_get, slice_index_or};
ghost use Rattle.std.specs.Option.{option_copied};
ghost use Rattle.class_file.specs.declared.class.ClassFile.{ClassFile as File};
ghost use Rattle.plain_model.specs.Classes.{is_made};
ghost use Rattle.plain_model.specs.Facts.{class_at};
ghost use Rattle.class_set.specs.Linked.{names_of};
ghost use Rattle.class_set.specs.Facts.{facts_of, class_facts};
ghost use Rattle.class_code.specs.Made.{made_places};

use class_file::ClassFile;
use class_links::is_interface;
use class_set::ClassSet;

/// The built-in classes by place: of Serializable, Cloneable and Runnable there are no instances.
const MADE: [bool; 28] = [
    true, true, false, true, true, true, true, false, true, true, true, true, true, true, true,
    true, true, true, true, false, true, true, true, true, true, true, true, true,
];

#[tactic(auto, unfolding(crate::specs::Made::made_places))]
fn is_made_place(place: usize) -> bool
    ensures { result ≡ slice_index_or made_places place false }
{
    match MADE.get(place) {
        Some(made) => *made,
        None => false,
    }
}

fn is_made_file(file: &ClassFile) -> bool
    ensures { (files : List File) → result ≡ is_made (class_facts files file.now) }
{
    !(is_interface(file) || file.access & 0x0400 != 0)
}

fn file_at(set: &ClassSet, class: u32) -> Option<&ClassFile>
    ensures { option_copied result ≡ slice_get set.now.files class }
{
    set.files().get(class as usize)
}

/// Whether a class has instances: no interface, no abstract class, and no array type that `new`
/// names.
pub(crate) fn is_made(set: &ClassSet, class: u32) -> bool
    requires { class < length (names_of set.now) }
    ensures { result ≡ is_made (class_at (facts_of set.now) class) }
{
    match file_at(set, class) {
        Some(file) => is_made_file(file),
        None => is_made_place(class as usize - set.files().len()),
    }
}
