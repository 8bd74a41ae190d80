// Names of classes, as commands give them.
ghost use Rattle.std.specs.Prelude.{◌≡◌, IfOk};
ghost use Rattle.source_classes.specs.Names.{slashed};

use std::alloc::{AllocError, Global};

/// A class's name in internal form (JVMS 4.2.1): a dot counts as a slash.
pub fn internal_name(alloc: Global, class: &[u8]) -> Result<Vec<u8>, AllocError>
    ensures { IfOk result (λ name. name.items ≡ slashed class.now) }
{
    class
        .iter()
        .map(|byte| if *byte == b'.' { b'/' } else { *byte })
        .collect(alloc)
}
