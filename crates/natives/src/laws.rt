//! Laws of built-in methods. Each function states one in its contract, and does nothing.

ghost use Rattle.natives.specs.Values.{Values};
ghost use Rattle.natives.specs.Follows.{MakeTheirRequestLists};
ghost use Rattle.natives.specs.Printed.{TextsArePrinted};
ghost use Rattle.natives.specs.Rows.{AreSteps, singles, equal_texts, built, printed_numbers, printed_texts, long_texts};
ghost use Rattle.natives.specs.Rows.{threads};

/// Each built-in method asks, calls and gives back what its request list says, whatever the
/// replies are.
pub fn methods_make_their_request_lists<R, V>()
    ensures { (x : Values R V) → MakeTheirRequestLists x }
{}

/// Request lists by rows, made by computation.
pub fn request_lists_are_those_of_the_rows()
    ensures singles { AreSteps singles }
    ensures equal_texts { AreSteps equal_texts }
    ensures built { AreSteps built }
    ensures printed_numbers { AreSteps printed_numbers }
    ensures printed_texts { AreSteps printed_texts }
    ensures long_texts { AreSteps long_texts }
    ensures threads { AreSteps threads }
{}

/// What a String's printing prints is its text in UTF-8, whatever part of a piece each print takes,
/// and a line feed behind a line.
pub fn texts_are_printed_in_utf8<R, V>()
    ensures { (x : Values R V) → TextsArePrinted x }
{}
