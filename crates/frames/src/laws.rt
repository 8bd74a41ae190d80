//! Laws of turns and answers. Each function states some in its contract, and does nothing.

ghost use Rattle.frames.specs.Settings.{Setting};
ghost use Rattle.frames.specs.Maps.{Keeps, GoAlike};
ghost use Rattle.frames.specs.Rows.{AreTurns, AreAnswers, calling, faults, monitors, replies, thrown, initialising};
ghost use Rattle.frames.specs.CallRows.{AreWholeTurns, AreWholeAnswers, whole_turns, whole_answers, beginnings, superclasses};
ghost use Rattle.frames.specs.CallRows.{mains, ends_initialiser, selecting, entering};
ghost use Rattle.frames.specs.NativeRows as native;
ghost use Rattle.frames.specs.PrivateRows.{constants, moves, numbers, branches};
ghost use Rattle.frames.specs.RequestRows.{AreAsked, AreTaken, asking, wrong_operands, taking, branching, no_room};

/// Where references, states of native methods and values correspond, so do turns and answers: the frames of a
/// machine whose references move go as those of one whose references are numbers of objects. M is the type of
/// native methods.
pub fn turns_and_answers_go_alike<M, R, S, N, O, V, W>()
    ensures { (f : R → S) (g : N → O) (h : V → W) (a : Setting M R N V) (b : Setting M S O W)
        → Keeps f g h a b → GoAlike f g h a b }
{}

/// A call asks for its class, faults are told where they are found, synchronized methods ask for their monitors,
/// and threads ask before their first instruction and once they end.
pub fn turns_are_those_of_the_standard()
    ensures calling { AreTurns calling }
    ensures faults { AreTurns faults }
    ensures monitors { AreTurns monitors }
    ensures beginnings { AreTurns beginnings }
    ensures ends_initialiser { AreTurns ends_initialiser }
    ensures entering { AreTurns entering }
{}

/// Calls return, throwables go to the handlers that the standard says, and classes are initialised, their
/// superclasses first, and the main class before `main`.
pub fn answers_are_those_of_the_standard()
    ensures replies { AreAnswers replies }
    ensures thrown { AreAnswers thrown }
    ensures initialising { AreAnswers initialising }
    ensures superclasses { AreAnswers superclasses }
    ensures mains { AreAnswers mains }
    ensures selecting { AreAnswers selecting }
{}

/// Each shared instruction asks of its operands what the standard says, and takes and leaves what it says.
pub fn requests_are_those_of_the_standard()
    ensures asking { AreAsked asking }
    ensures wrong_operands { AreAsked wrong_operands }
    ensures taking { AreTaken taking }
    ensures branching { AreAnswers branching }
    ensures no_room { AreAnswers no_room }
{}

/// A turn ends with a request, or after 1,024 private instructions.
pub fn turns_are_of_1024_instructions()
    ensures turns { AreWholeTurns whole_turns }
    ensures answers { AreWholeAnswers whole_answers }
{}

/// Each private instruction does what the standard says.
pub fn private_instructions_are_those_of_the_standard()
    ensures constants { AreTurns constants }
    ensures moves { AreTurns moves }
    ensures numbers { AreTurns numbers }
    ensures branches { AreTurns branches }
{}

/// A native method is given its arguments, asks, calls, and gives back as the standard says of methods.
pub fn native_methods_go_as_methods_do()
    ensures turns { native.AreTurns native.turns }
    ensures answers { native.AreAnswers native.answers }
{}
