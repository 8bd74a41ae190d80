// What holds of every run of calls.
ghost use Rattle.std.specs.Prelude.{ℕ, List, ◌<◌};
ghost use Rattle.line_memory.specs.Laws.{StopsStayInside, AddsWhatIsShown, StoresAloneAdd, FencedStandsAlone};
ghost use Rattle.line_memory.specs.Laws.{FencesLeaveWhatIsRead, ReadsGiveWhatWasWritten, NoneElseIsLeft, EachIsLeft};
ghost use Rattle.line_memory.specs.Memory.{Memory, CanLeave, IsResident};
ghost use Rattle.line_memory.specs.Steps.{Step, last};
ghost use Rattle.line_memory.specs.StopSet.{InStopSet};

/// What a stop can leave of a word lies in its stop set. Does nothing: its contract says so of every run.
pub fn laws_of_stop_sets()
    ensures in_stop_set { (first : Memory) (steps : List Step) (l w v : ℕ)
        → CanLeave (last first steps) l w v → InStopSet first steps l w v }
{}

/// Along calls that follow one another, a stop set gains what is stored to the word and nothing else, and holds
/// all that a stop can leave until the next store to it. Does nothing.
pub fn stop_sets_gain_what_is_stored()
    ensures stay_inside { StopsStayInside }
    ensures one_more { AddsWhatIsShown }
    ensures stores_alone { StoresAloneAdd }
{}

/// The stop set of a word that was written back and fenced since its last store is what it shows, alone. Does
/// nothing.
pub fn a_fenced_word_stands_alone()
    ensures { FencedStandsAlone }
{}

/// What a stop leaves after a fence is what was shown at a write-back before it. Does nothing.
pub fn fences_leave_what_was_written()
    ensures read { FencesLeaveWhatIsRead }
    ensures written { ReadsGiveWhatWasWritten }
{}

/// A stop set has exactly what a stop might leave where lines are written back at further moments. Does nothing.
pub fn a_stop_set_is_exact()
    ensures none_else { NoneElseIsLeft }
    ensures each { EachIsLeft }
{}

/// Each line of the image is resident: the cache has room for all of them. Does nothing.
pub fn every_line_is_resident()
    ensures { (m : Memory) (l : ℕ) → l < m.size → IsResident m l }
{}
