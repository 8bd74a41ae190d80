//! The numbers of classes.

ghost use Rattle.std.specs.Prelude.{◌≡◌, ◌+◌, ◌≤◌, None, [], map, length, IfOk, OnErr, OnOk};
ghost use Rattle.text_table.specs.Texts.{with_text, with_texts};
ghost use Rattle.built_in_table.specs.Members.{built_in_names};
ghost use Rattle.class_links.specs.Names.{name_of};
ghost use Rattle.class_links.specs.Links.{doubled};
ghost use Rattle.class_set.specs.Linked.{class_names};

use built_in_table::built_in_classes;
use class_file::ClassFile;
use class_links::name_of;
use std::alloc::{AllocError, Global};
use text_table::Texts;

fn file_names(alloc: Global, files: &[ClassFile]) -> Result<Texts, AllocError>
    requires few { length files.now ≤ 4096 }
    ensures names { IfOk result (λ names. names ≡ with_texts [] (map name_of files.now)) }
    ensures few { IfOk result (λ names. length names ≤ 4096) }
{
    let mut names = Texts::new(alloc);
    for file in files {
        names.add(alloc, name_of(file))?;
    }
    Ok(names)
}

fn add_built_ins(alloc: Global, names: &mut Texts) -> Result<(), AllocError>
    requires few { length names.old ≤ 4096 }
    ensures { OnOk result (names.new ≡ with_texts names.old built_in_names) }
{
    for class in built_in_classes() {
        names.add(alloc, class.name)?;
    }
    Ok(())
}

/// Gives a text that has none yet the next number. Want of numbers is want of memory. An `Err`
/// leaves the names as they were.
pub(crate) fn add_name(alloc: Global, names: &mut Texts, text: &[u8]) -> Result<(), AllocError>
    ensures added { OnOk result (names.new ≡ with_text names.old text.now) }
    ensures same { OnErr result (names.new ≡ names.old) }
{
    if names.len() >= u32::MAX - 1 {
        return Err(AllocError);
    }
    names.add(alloc, text)?;
    Ok(())
}

/// The names of the classes of files, and those of the built-in classes, by number.
pub(crate) fn class_names(alloc: Global, files: &[ClassFile]) -> Result<Texts, AllocError>
    requires few { length files.now ≤ 4096 }
    requires single { doubled files.now ≡ None }
    ensures { IfOk result (λ names. names ≡ class_names files.now) }
{
    let mut names = file_names(alloc, files)?;
    add_built_ins(alloc, &mut names)?;
    Ok(names)
}
