//! Laws of history files. Each function states some in its contract, and does nothing.

ghost use Rattle.std.specs.Prelude.{◌≡◌, ℕ, List, Ok};
ghost use Rattle.parsing.specs.Bytes.{IsBytes};
ghost use Rattle.run_history.specs.Recorded.{Recorded};
ghost use Rattle.history_file.specs.Spelling.{AreTold, history_bytes};
ghost use Rattle.history_file.specs.Reading.{history_in};
ghost use Rattle.history_file.specs.Rows.{ArePrinted, AreRefused};

/// What is read is written as the same bytes, and is a history that a file can tell.
pub fn what_is_read_is_written()
    ensures bytes { (bytes : List ℕ) (acts : List Recorded) (keep : ℕ) → IsBytes bytes
        → history_in bytes ≡ Ok (acts, keep) → history_bytes acts keep ≡ bytes }
    ensures told { (bytes : List ℕ) (acts : List Recorded) (keep : ℕ) → IsBytes bytes
        → history_in bytes ≡ Ok (acts, keep) → AreTold acts keep }
{}

/// What a file can tell is read as it was written.
pub fn what_is_written_is_read()
    ensures { (acts : List Recorded) (keep : ℕ) → AreTold acts keep → history_in (history_bytes acts keep) ≡ Ok (acts, keep) }
{}

/// The words of a printed text, and files that are none with their faults.
pub fn small_files_have_their_answers()
    ensures print { ArePrinted }
    ensures refused { AreRefused }
{}
