// The names of durable roots.
ghost use Rattle.std.specs.Prelude.{◌≡◌, ◌≢◌, ℕ, List, AllPairs, IfOk};
ghost use Rattle.set_directory.specs.Written.{written_roots};

use ap_base::Bytes;
use class_set::ClassSet;
use std::alloc::{AllocError, Global};
use text_table::{SortedTexts, Texts};

/// The names of the set's durable roots.
pub(crate) fn root_names(alloc: Global, set: &ClassSet) -> Result<SortedTexts, AllocError>
    ensures { IfOk result (λ names. names ≡ written_roots set.now) }
{
    let roots = set.roots(alloc)?;
    let mut names = SortedTexts::new(alloc);
    for root in roots.as_slice() {
        names.add(alloc, root.name.as_slice())?;
    }
    Ok(names)
}

/// Names that differ, found by their bytes. Want of numbers is want of memory.
pub(crate) fn slots_of(alloc: Global, names: &[Bytes]) -> Result<Texts, AllocError>
    requires differ { AllPairs (λ (name other : List ℕ). name ≢ other) names.now }
    ensures { IfOk result (λ slots. slots ≡ names.now) }
{
    let mut slots = Texts::new(alloc);
    for name in names {
        if slots.len() >= u32::MAX - 1 {
            return Err(AllocError);
        }
        slots.add(alloc, name.as_slice())?;
    }
    Ok(slots)
}
