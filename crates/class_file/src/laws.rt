//! What is read is what is written, and what small class files are read as.

ghost use Rattle.std.specs.Prelude.{◌≡◌, ◌<◌, ◌++◌, length, sum_by, List, ℕ, Ok};
ghost use Rattle.parsing.specs.Bytes.{IsBytes};
ghost use Rattle.class_file.specs.declared.class.ClassFile.{ClassFile as OneClassFile};
ghost use Rattle.class_file.specs.Classes.{CanBeRead, class_in, class_bytes};
ghost use Rattle.class_file.specs.Fits.{Fits};
ghost use Rattle.class_file.specs.Members.{op_count};
ghost use Rattle.class_file.specs.Rows.{AreAnswers, classes, no_classes};

/// A class file that is read has the bytes that its writer gives, and the counts and lengths that a writer needs.
pub fn what_is_read_is_written()
    ensures bytes { (bytes : List ℕ) (c : OneClassFile) → IsBytes bytes → class_in bytes ≡ Ok c
        → class_bytes c ≡ bytes }
    ensures fits { (bytes : List ℕ) (c : OneClassFile) → IsBytes bytes → class_in bytes ≡ Ok c
        → Fits c }
{}

/// A class file that was read is written as bytes that are read as it.
pub fn what_is_written_is_read()
    ensures { (c : OneClassFile) → CanBeRead c → class_in (class_bytes c) ≡ Ok c }
{}

/// A class file that can be read has more bytes than its methods have instructions, with an end for each.
pub fn instructions_take_bytes()
    ensures { (c : OneClassFile) → CanBeRead c
        → sum_by op_count c.methods < length (class_bytes c) }
{}

/// Small class files are read, and what is none has its fault.
pub fn small_classes_have_their_answers()
    ensures read { AreAnswers classes }
    ensures refused { AreAnswers no_classes }
{}
