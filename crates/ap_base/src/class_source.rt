// Where class files come from.
ghost use Rattle.std.specs.Prelude.{◌≡◌, ◌≤◌, ℕ, List, Option, IfOk, OnErr, IsErrOf};
ghost use Rattle.ap_base.specs.Causes.{Rose};
ghost use Rattle.ap_base.specs.Sources.{Gives};
ghost use Rattle.ap_base.specs.declared.source.NamedBytes.{NamedBytes as File};

use crate::{NamedBytes, SourceError};
use std::alloc::Global;

/// Gives class files one by one.
pub trait ClassSource: Drop {
    /// How often it has failed.
    ghost faults: { Self → ℕ };

    /// The files that it has left, where it tells them.
    ghost left: { Self → Option (List File) };

    /// The next file, `None` at the end.
    fn next(&mut self, alloc: Global) -> Result<Option<NamedBytes>, SourceError>
        ensures file { IfOk result (λ file. Gives (left self.old) file (left self.new)) }
        ensures kept { OnErr result (left self.new ≡ left self.old) }
        ensures later { faults self.old ≤ faults self.new }
        ensures cause { IsErrOf result SourceError.Failed → Rose (faults self.old) (faults self.new) };
}
