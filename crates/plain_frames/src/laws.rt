//! Laws of plain frames. Each function states some in its contract, and does nothing.

ghost use Rattle.plain_frames.specs.DutyLaws.{TurnsAreFit, AnswersKeepIn, InitialisersLeave, LaterWorldsKeepIn};
ghost use Rattle.plain_frames.specs.DutyLaws.{MainBeginsIn, ThreadsBeginIn, StepsAnswerIn, StepsKeepIn, OthersStayIn};
ghost use Rattle.plain_frames.specs.DutyLaws.{ProgramsAskWhatIsFit, WorldsAreOf, FramesStayIn};
ghost use Rattle.plain_frames.specs.Small.{MeetsAll, RunsSo};
ghost use Rattle.plain_frames.specs.ValueRows.{AskOfValues, GiveValues, Begin};

/// A turn of frames whose references are there asks what is fit, and leaves such frames. M is the
/// type of native methods, N that of their states.
pub fn turns_are_fit<M, N>()
    ensures { TurnsAreFit M N }
{}

/// An answer to a reply that names what is there leaves such frames, and so does that to an
/// initialiser that is done.
pub fn answers_keep_frames_in_the_world<M, N>()
    ensures answers { AnswersKeepIn M N }
    ensures initialisers { InitialisersLeave M N }
{}

/// Such frames stay so in a later world.
pub fn later_worlds_keep_frames_in<M, N>()
    ensures { LaterWorldsKeepIn M N }
{}

/// The first frames of a thread are in the world in which it begins.
pub fn threads_begin_in_the_world<N>()
    ensures main { MainBeginsIn N }
    ensures threads { ThreadsBeginIn N }
{}

/// A step leaves the frames of its thread in the world after it, once they are answered, and those of
/// the other threads.
pub fn steps_keep_frames_in_the_world<M, N>()
    ensures answers { StepsAnswerIn M N }
    ensures own { StepsKeepIn M N }
    ensures others { OthersStayIn M N }
{}

/// The code of a class set keeps its duties: each request of each plain run is fit.
pub fn programs_ask_what_is_fit<M, N>()
    ensures duties { ProgramsAskWhatIsFit M N }
    ensures worlds { WorldsAreOf M N }
    ensures frames { FramesStayIn M N }
{}

/// There are programs of which the law on duties speaks: a small one meets all its premises, and it
/// runs.
pub fn a_small_program_meets_all()
    ensures premises { MeetsAll }
    ensures run { RunsSo }
{}

/// Plain frames hold numbers, null and objects as the plain heap does, and threads begin by them.
pub fn frames_hold_plain_values()
    ensures asked { AskOfValues }
    ensures given { GiveValues }
    ensures beginnings { Begin }
{}
