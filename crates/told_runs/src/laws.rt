// Laws of the histories of plain runs. Each function states one in its contract, and does nothing. `Frames` is what code
// keeps of a thread.
ghost use Rattle.told_runs.specs.Told.{RunsAreReadAsWritten, TestsAreWhole};

/// A test of a class in a plain run names both an object and a shape, or neither.
pub fn tests_of_runs_are_whole<Frames>()
    ensures { TestsAreWhole Frames }
{}

/// A plain run whose numbers are those of the program's types is read from a file as it was written there.
pub fn runs_are_read_as_they_were_written<Frames>()
    ensures { RunsAreReadAsWritten Frames }
{
    history_file::laws::what_is_written_is_read();
}
