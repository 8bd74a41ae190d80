//! Laws of programs. Each function states some in its contract, and does nothing.

ghost use Rattle.std.specs.Prelude.{◌≡◌, ℕ, ◌<◌, length, Option, Some, slice_get};
ghost use Rattle.class_set.specs.Linked.{Linked, names_of};
ghost use Rattle.class_code.specs.Methods.{Site};
ghost use Rattle.class_code.specs.Codes.{Start};
ghost use Rattle.class_code.specs.Dispatched.{IsTold};
ghost use Rattle.class_code.specs.Entries.{pool_of};
ghost use Rattle.class_code.specs.FormRows.{FormsAreDecoded};
ghost use Rattle.class_code.specs.RowLaws.{LeadsToItsRows};
ghost use Rattle.class_code.specs.Programs.{program_of};
ghost use Rattle.class_code.specs.Rows.{SmallSetIsDecoded};
ghost use Rattle.class_code.specs.Targets.{JumpsLead, StandsThere, placements};

/// The code, the methods, the fields and the classes of a small class set are those that were
/// worked out by hand.
pub fn a_small_set_is_decoded()
    ensures { SmallSetIsDecoded }
{}

/// Each form of instruction is decoded to what it does (JVMS 6.5): worked out by hand in a class of the
/// small set.
pub fn instructions_are_decoded()
    ensures { FormsAreDecoded }
{}

/// The jumps and the exception entries of each method lead to the instructions of the same method
/// that the file names. M is the type of native methods.
pub fn jumps_lead_where_the_file_says<M>()
    ensures { (native_at : (place number : ℕ) → Option M)
        (set : Linked) (m : ℕ) (site : Site) (start : Start)
        → slice_get (placements set) m ≡ Some (site, start)
        → JumpsLead set (program_of native_at set) site start }
{}

/// The number of a field, a selector or a long in an operand leads to what its entry of the pool
/// names.
pub fn numbers_lead_to_their_rows<M>()
    ensures { (native_at : (place number : ℕ) → Option M) (set : Linked) (class index : ℕ)
        → class < length set.files → index < length (pool_of set.files class)
        → LeadsToItsRows set (program_of native_at set) class index }
{}

/// The tables say of each class and each array type what the set says: a virtual call finds the
/// method that is found by name from the receiver's class on.
pub fn classes_are_those_of_the_set<M>()
    ensures { (native_at : (place number : ℕ) → Option M) (set : Linked) (n : ℕ)
        → n < length (names_of set) → IsTold set (program_of native_at set) n }
{}

/// Each method of a file stands in the program under the number that its instructions have, with
/// the code that begins there.
pub fn methods_stand_where_their_code_does<M>()
    ensures { (native_at : (place number : ℕ) → Option M)
        (set : Linked) (m : ℕ) (site : Site) (start : Start)
        → slice_get (placements set) m ≡ Some (site, start)
        → StandsThere set (program_of native_at set) m site start }
{}
