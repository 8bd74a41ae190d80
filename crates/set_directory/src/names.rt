// The names of a class set's entries, in the order of their bytes.
ghost use Rattle.std.specs.Prelude.{◌≡◌, IfOk};
ghost use Rattle.class_set.specs.Sets.{IsLinked};
ghost use Rattle.directories.specs.ClassSets.{AreInOrder};
ghost use Rattle.set_directory.specs.Written.{is_written, has_shape, written_names, written_roots};

use class_set::ClassSet;
use std::alloc::{AllocError, Global};
use text_table::{SortedTexts, Texts};

/// Whether a directory has a shape for the class or the array type with this number.
fn is_written(set: &ClassSet, n: u32) -> bool
    ensures { result ≡ is_written set.now n }
{
    if (n as usize) < set.named_count() {
        !set.is_interface(n)
    } else {
        set.makes(n) && set.has_innermost(n)
    }
}

/// The same by its name.
fn has_shape(set: &ClassSet, name: &[u8]) -> bool
    ensures { result ≡ has_shape set.now name.now }
{
    match set.class_named(name) {
        Some(n) => is_written(set, n),
        None => false,
    }
}

/// Texts in the order of their bytes, as a list.
fn listed(alloc: Global, names: &SortedTexts) -> Result<Texts, AllocError>
    requires in_order { AreInOrder names.now }
    ensures { IfOk result (λ texts. texts ≡ names.now) }
{
    let mut texts = Texts::new(alloc);
    texts.add_all(alloc, names)?;
    Ok(texts)
}

/// The names of the shapes that a directory has for the class set, in order.
pub(crate) fn shape_names(alloc: Global, set: &ClassSet) -> Result<Texts, AllocError>
    ensures names { IfOk result (λ names. names ≡ written_names set.now) }
    ensures linked { IsLinked set.now }
{
    let mut names = SortedTexts::new(alloc);
    for shape in set.shapes() {
        if has_shape(set, shape.name.as_slice()) {
            names.add(alloc, shape.name.as_slice())?;
        }
    }
    listed(alloc, &names)
}

/// The names of the durable roots, in order, each once.
pub(crate) fn root_names(alloc: Global, set: &ClassSet) -> Result<Texts, AllocError>
    ensures { IfOk result (λ names. names ≡ written_roots set.now) }
{
    let roots = set.roots(alloc)?;
    let mut names = SortedTexts::new(alloc);
    for root in roots.as_slice() {
        names.add(alloc, root.name.as_slice())?;
    }
    listed(alloc, &names)
}
