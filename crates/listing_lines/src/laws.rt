//! Laws of the meaning of lines, by computation. Each function states some in its contract, and does nothing.

ghost use Rattle.std.specs.Prelude.{◌≡◌, ◌++◌, ◌∷◌, [], codes};
ghost use Rattle.listing_lines.specs.declared.refusal.ListingFault.TheVariants.{Syntax};
ghost use Rattle.listing_lines.specs.declared.lines.Line.TheVariants.{Super, Wrong};
ghost use Rattle.listing_lines.specs.Lines.{listing_lines};
ghost use Rattle.listing_lines.specs.Rows.{AreLines, AreWrong, new_line, plain_lines, instruction_lines, wrong_lines};

/// What directives, labels and instructions mean by themselves.
pub fn each_line_has_its_meaning()
    ensures plain { AreLines plain_lines }
    ensures instructions { AreLines instruction_lines }
{}

/// Which lines are wrong by themselves, and why.
pub fn each_wrong_line_has_its_fault()
    ensures { AreWrong wrong_lines }
{}

/// A line ends in a new line: what stands behind the last one is wrong.
pub fn each_line_ends_in_a_new_line()
    ensures none { listing_lines [] ≡ [] }
    ensures whole { listing_lines (codes ".super B" ++ new_line ∷ []) ≡ Super (codes "B") ∷ [] }
    ensures cut { listing_lines (codes ".super B") ≡ Wrong Syntax ∷ [] }
{}
