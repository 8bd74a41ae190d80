//! The numbers of methods, class by class.

ghost use Rattle.std.specs.Prelude.{◌≡◌, ◌<◌, ◌≤◌, ◌^◌, length, All, IfOk};
ghost use Rattle.class_set.specs.Tables.{IsSmall};
ghost use Rattle.class_code.specs.Firsts.{AreFirsts};
ghost use Rattle.class_code.specs.Methods.{method_count};

use built_in_table::built_in_classes;
use class_set::ClassSet;
use std::alloc::{AllocError, Global};

/// How many methods a class declares.
fn method_count(set: &ClassSet, class: usize) -> usize
    requires small { All IsSmall set.now.files }
    ensures count { result ≡ method_count set.now class }
    ensures few { method_count set.now class < 2 ^ 16 }
{
    let files = set.files();
    if class < files.len() {
        return files[class].methods.len();
    }
    match built_in_classes().get(class - files.len()) {
        Some(built_in) => built_in.methods.len(),
        None => 0,
    }
}

/// The number of each class's first method.
pub(crate) fn first_methods(alloc: Global, set: &ClassSet) -> Result<Vec<u32>, AllocError>
    requires few { length set.now.files ≤ 4096 }
    requires small { All IsSmall set.now.files }
    ensures { IfOk result (λ firsts. AreFirsts set.now firsts.items) }
{
    let mut firsts = Vec::new(alloc);
    let mut first: usize = 0;
    for class in 0..set.named_count() {
        firsts.push(first as u32)?;
        first += method_count(set, class);
    }
    Ok(firsts)
}
