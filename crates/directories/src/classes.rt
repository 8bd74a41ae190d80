// What a directory asks of a class set.
ghost use Rattle.std.specs.Prelude.{◌≡◌, ℕ, List, map, IfOk, IfErr, OnOk, OnErr, option_copied};
ghost use Rattle.plain_model.specs.Facts.{SetFacts};
ghost use Rattle.image_meaning.specs.Entries.{DirectoryEntry};
ghost use Rattle.directories.specs.Kept.{Continues};
ghost use Rattle.directories.specs.Planning.{CanBePlanned};
ghost use Rattle.directories.specs.Read.{entry_of};
ghost use Rattle.directories.specs.ClassSets.{class_named, AreEntriesOf, IsPlannedFor, IsRefusedFor};

use crate::directory::Directory;
use crate::entries::Entry;
use crate::planning::PlanFault;
use graph_model::Shape;
use std::alloc::{AllocError, Global};

/// A class set, as far as a directory asks it.
pub trait Classes {
    /// What the set tells as plain data.
    ghost facts: { Self → SetFacts };

    /// The descriptors of the array types that the code makes.
    ghost made: { Self → List (List ℕ) };

    /// The shape of the class with this name, array types aside. `None` exactly where there is none.
    fn class_shape(&self, name: &[u8]) -> Option<&Shape>
        ensures named { option_copied result ≡ class_named (facts self.now) name.now };

    /// The entries of the set, in order.
    fn entries(&self, alloc: Global) -> Result<Vec<Entry>, AllocError>
        ensures entries { IfOk result (λ entries. AreEntriesOf (facts self.now) (made self.now) (map entry_of entries.items)) }
        ensures can { IfOk result (λ entries. CanBePlanned (map entry_of entries.items)) };
}

impl Directory {
    /// Plans the entries of the class set that the directory lacks, in order, behind what is left of earlier plans. `Full` exactly
    /// where there is too little room for it. After an `Err` all is as before.
    pub fn plan<S: Classes>(&mut self, alloc: Global, set: &S) -> Result<(), PlanFault>
        ensures planned { OnOk result (IsPlannedFor (S.facts set.now) (S.made set.now) self.old self.new) }
        ensures continues { (had : List DirectoryEntry) → Continues had self.old → OnOk result (Continues had self.new) }
        ensures full { IfErr result (λ fault. IsRefusedFor (S.facts set.now) (S.made set.now) self.old fault) }
        ensures same { OnErr result (self.new ≡ self.old) }
    {
        let entries = set.entries(alloc)?;
        self.plan_entries(alloc, entries.as_slice())
    }
}
