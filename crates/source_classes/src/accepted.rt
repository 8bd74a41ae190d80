// Class files as they are accepted, and class sets of such files.
ghost use Rattle.std.specs.Prelude.{◌≡◌, ◌≤◌, All, length};
ghost use Rattle.class_file.specs.Classes.{CanBeRead, HasAtMost};

use class_file::ClassFile;
use class_set::ClassSet;
use std::marker::Model;

/// Class files that are accepted: at most 4,096, each of which can be read and has at most 1,048,576 bytes. Contracts see their list.
#[derive(Drop)]
pub struct AcceptedFiles {
    files: Vec<ClassFile>,
}

impl Model for AcceptedFiles {
    ghost use Rattle.std.specs.Prelude.{List};
    ghost use Rattle.class_file.specs.declared.class.ClassFile.{ClassFile};
    ghost use Rattle.source_classes.specs.Accepted.{AreAccepted};

    ghost Value = { List ClassFile };

    ghost view = { λ a. a.files.items };

    ghost invariant = { λ a. AreAccepted a.files.items };
}

impl AcceptedFiles {
    /// These class files, which are accepted.
    pub fn of(files: Vec<ClassFile>) -> AcceptedFiles
        requires few { length files.items ≤ 4096 }
        requires readable { All CanBeRead files.items }
        requires small { All (HasAtMost 1048576) files.items }
        ensures { result ≡ files.items }
    {
        AcceptedFiles { files }
    }

    /// The class files.
    pub fn into_vec(self) -> Vec<ClassFile>
        ensures files { result.items ≡ self }
        ensures few { length result.items ≤ 4096 }
        ensures readable { All CanBeRead result.items }
        ensures small { All (HasAtMost 1048576) result.items }
    {
        self.files
    }
}

/// A class set of files of which each has at most 1,048,576 bytes.
#[derive(Drop)]
pub struct AcceptedSet {
    pub linked: ClassSet,
    pub ghost small: { All (HasAtMost 1048576) linked.files },
}
