// Which words ask for what.
ghost use Rattle.std.specs.Prelude.{◌≡◌, ◌∷◌, [], codes, List, None, Some};
ghost use Rattle.clap.specs.Words.{Text};
ghost use Rattle.command_words.specs.Asked.{IsInRange};
ghost use Rattle.command_words.specs.Commands.{command_of};
ghost use Rattle.command_words.specs.Rows as rows;
ghost use Rattle.command_words.specs.declared.command.Command.{Command};

/// The numbers of a command are in their ranges.
pub fn numbers_are_in_range()
    ensures { (words : List Text) (command : Command) → command_of words ≡ Some command → IsInRange command }
{}

/// What words ask for, row by row.
pub fn words_are_read()
    ensures order { rows.Each rows.AsksFor rows.in_any_order }
    ensures numbers { rows.Each rows.AsksFor rows.with_numbers }
    ensures values { rows.Each rows.AsksFor rows.with_odd_values }
    ensures others { rows.Each rows.AsksFor rows.of_others }
    ensures files { rows.Each rows.AsksFor rows.with_files }
{}

/// Which words ask for nothing, row by row; and that the program's name alone doesn't.
pub fn words_are_refused()
    ensures run { rows.Each rows.AsksNothing rows.wrong_for_run }
    ensures others { rows.Each rows.AsksNothing rows.wrong_for_others }
    ensures ranges { rows.Each rows.AsksNothing rows.out_of_range }
    ensures numbers { rows.Each rows.AsksNothing rows.no_numbers }
    ensures values { rows.Each rows.AsksNothing rows.wrong_values }
    ensures commands { rows.Each rows.AsksNothing rows.no_commands }
    ensures files { rows.Each rows.AsksNothing rows.wrong_files }
    ensures name { command_of (codes "autopersist" ∷ []) ≡ None }
{}
