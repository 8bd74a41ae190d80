// What a world has first beside its heap.
ghost use Rattle.std.specs.Prelude.{◌≡◌, IfOk};
ghost use Rattle.class_set.specs.Facts.{facts_of};
ghost use Rattle.plain_model.specs.First.{first_progress};
ghost use Rattle.one_space.specs.Beside.{IsFirstRest};
ghost use Rattle.one_space.specs.First.{no_graph};

use class_set::ClassSet;
use monitors::Monitors;
use run_history::Progress;
use shared_objects::{Rest, Threads};
use std::alloc::{AllocError, Global};

/// The program's classes are untouched, and all others done.
fn first_progress(alloc: Global, set: &ClassSet) -> Result<Vec<Progress>, AllocError>
    ensures { IfOk result (λ classes. classes.items ≡ first_progress (facts_of set.now) no_graph) }
{
    let mut classes = Vec::new(alloc);
    classes.resize(set.files().len(), Progress::Untouched)?;
    classes.resize(set.type_count(), Progress::Finished)?;
    Ok(classes)
}

/// No monitor is held, no class of the program has begun, and thread 0 alone has.
pub fn first_rest(alloc: Global, set: &ClassSet) -> Result<Rest, AllocError>
    ensures { IfOk result (λ rest. IsFirstRest (facts_of set.now) rest) }
{
    Ok(Rest {
        monitors: Monitors::reserve(alloc)?,
        classes: first_progress(alloc, set)?,
        threads: Threads::reserve(alloc)?,
    })
}
