//! Laws of the grammar of codes, by computation. Each function states some in its contract, and does nothing.

ghost use Rattle.std.specs.Prelude.{◌≡◌, Ok};
ghost use Rattle.code_form.specs.Spelling.{written};
ghost use Rattle.code_form.specs.Reading.{code_of};
ghost use Rattle.code_form.specs.Rows.{AreCodes, AreRefused, loads, stores, arithmetic, jumps, objects, refusals, whole_bytes};
ghost use Rattle.code_form.specs.Rows.{whole_code, whole_written};

/// Each opcode alone, as its section of JVMS 6.5 spells it, is its instruction.
pub fn each_instruction_is_read()
    ensures loads { AreCodes loads }
    ensures stores { AreCodes stores }
    ensures arithmetic { AreCodes arithmetic }
    ensures jumps { AreCodes jumps }
    ensures objects { AreCodes objects }
{}

/// Other opcodes, instructions that aren't whole, counts below 0 and targets where no instruction begins are refused, and
/// the first fault is the answer.
pub fn what_is_no_code_is_refused()
    ensures { AreRefused refusals }
{}

/// A code with both switches and jumps forth and back is read whatever its padding is, and is written with zeros there.
pub fn a_whole_code_is_read()
    ensures read { code_of whole_bytes ≡ Ok whole_code }
    ensures written { written whole_code ≡ whole_written }
{}
