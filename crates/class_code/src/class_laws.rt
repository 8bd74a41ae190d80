//! Laws of the classes of programs. Each function states some in its contract, and does nothing.

ghost use Rattle.std.specs.Prelude.{◌≡◌, ℕ, ◌<◌, ◌≤◌, length, All, List, Option};
ghost use Rattle.class_file.specs.declared.class.ClassFile.{ClassFile};
ghost use Rattle.class_file.specs.Classes.{CanBeRead, HasAtMost};
ghost use Rattle.class_links.specs.Kept.{kept_files};
ghost use Rattle.plain_frames.specs.Tables.{IsProgramOf, NamesWhatIsThere};
ghost use Rattle.class_links.specs.Links.{Links};
ghost use Rattle.class_set.specs.ArrayTypes.{linked_from};
ghost use Rattle.class_set.specs.Facts.{facts_of};
ghost use Rattle.class_set.specs.Linked.{Linked, names_of};
ghost use Rattle.class_set.specs.Sets.{IsLinked};
ghost use Rattle.class_code.specs.Inherited.{IsInherited};
ghost use Rattle.class_code.specs.Programs.{program_of};
ghost use Rattle.class_code.specs.Sizes.{IsTooLarge};

/// In the program of a set that links a call finds a method that the receiver's class declares, or
/// else what it finds from the superclass on; what it finds can be called on an object; and an
/// initialiser is the class's own.
pub fn calls_find_own_methods_first<M>()
    ensures { (native_at : (place number : ℕ) → Option M) (set : Linked) (n : ℕ) → Links set.files
        → n < length (names_of set) → IsInherited set (program_of native_at set) n }
{}

/// The program of a linked set names what is there, and of the sort that each instruction needs.
/// M is the type of native methods.
pub fn programs_name_what_is_there<M>()
    ensures { (native_at : (place number : ℕ) → Option M) (set : Linked) → IsLinked set
        → NamesWhatIsThere (facts_of set) (program_of native_at set) }
{}

/// The program of a linked set is its tables, in all that frames ask of them: operands name entries
/// of its own tables and methods that may be called so, methods of files alone have code, and the
/// supertypes, the initialiser and the look-ups of each class are the set's. M is the type of native
/// methods.
pub fn programs_are_their_sets<M>()
    ensures { (native_at : (place number : ℕ) → Option M) (set : Linked) → IsLinked set
        → IsProgramOf (facts_of set) (program_of native_at set) }
{}

/// No set of class files as the program accepts them is too large to be decoded: of at most 4,096 files
/// with at most 1,048,576 bytes each. So it is with what is linked of them.
pub fn accepted_sets_have_room()
    ensures files { (set : Linked) → length set.files ≤ 4096 → All CanBeRead set.files
        → All (HasAtMost 1048576) set.files → IsTooLarge set → ⊥ }
    ensures linked { (classes : List ClassFile) → length classes ≤ 4096 → All CanBeRead classes
        → All (HasAtMost 1048576) classes → IsTooLarge (linked_from (kept_files classes)) → ⊥ }
{}
