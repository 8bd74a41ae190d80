//! Laws of built-in methods, and of machines that have them. Each function states some in its
//! contract, and does nothing but cite others.

ghost use Rattle.natives.specs.Values.{Values};
ghost use Rattle.frames.specs.declared.given.Given.{Given};
ghost use Rattle.plain_frames.specs.Moves.{AreAlike, MethodsGoAlike};
ghost use Rattle.plain_frames.specs.Coded.{ItemsAreAlike};
ghost use Rattle.plain_frames.specs.Keeping.{BuiltInMethodsKeepIn};
ghost use Rattle.plain_frames.specs.NamedMethods.{BuiltInMethodsAreNamed, NoOthersAsk};
ghost use Rattle.plain_frames.specs.RequestLists.{StatesMakeTheirRequestLists, FramesMakeTheirRequestLists};
ghost use Rattle.plain_frames.specs.Machines.{SettingsKeep, PlainSettingsAreSuch, SettingsGoAlike};
ghost use Rattle.plain_frames.specs.Machines.{BuiltInProgramsAskWhatIsFit, BuiltInWorldsAreOf, BuiltInFramesStayIn};
ghost use Rattle.natives.specs.Rows.{AreSteps};
ghost use Rattle.plain_frames.specs.Rows.{appended, appended_objects, printed_values, printed_objects, whole_pieces};

/// Which native method stands behind each name and descriptor of a built-in class; the others ask
/// nothing.
pub fn built_in_methods_are_those_of_the_table()
    ensures named { BuiltInMethodsAreNamed }
    ensures others { NoOthersAsk }
{}

/// A built-in method in progress asks, calls and gives back what its request list says, from its
/// start on: its first request once, and Pause while a method runs that it called. So does one as
/// frames have it.
pub fn states_make_their_request_lists<R, V>()
    ensures states { (x : Values R V) → StatesMakeTheirRequestLists x }
    ensures frames { (x : Values R V) (give : V → Given R) → FramesMakeTheirRequestLists x give }
{
    natives::methods_make_their_request_lists::<R, V>();
}

/// Further request lists by rows, made by computation.
pub fn further_request_lists_are_those_of_the_rows()
    ensures appended { AreSteps appended }
    ensures appended_objects { AreSteps appended_objects }
    ensures printed_values { AreSteps printed_values }
    ensures printed_objects { AreSteps printed_objects }
    ensures whole_pieces { AreSteps whole_pieces }
{}

/// Where values are made and read alike, so do built-in methods go: what frames of references that
/// move ask of them is what plain ones ask.
pub fn built_in_methods_go_alike<R, S, V, W>()
    ensures { (f : R → S) (h : V → W) (x : Values R V) (y : Values S W) (give : V → Given R)
        (give' : W → Given S)
        → AreAlike f h x y give give' → MethodsGoAlike f h x y give give' }
{}

/// So machines with the built-in methods keep what frames want of a change of references, and their
/// turns and answers go alike; the plain machine is such a one.
pub fn machines_with_built_in_methods_go_alike<R, S, V, W>()
    ensures keep { (f : R → S) (h : V → W) → SettingsKeep f h }
    ensures alike { (f : R → S) (h : V → W) → SettingsGoAlike f h }
    ensures plain { PlainSettingsAreSuch }
{}

/// The built-in methods of a consistent class set keep what frames want of native methods: in a
/// world they ask what is fit there, and arguments, replies, results and more objects leave them
/// in it.
pub fn built_in_methods_keep_in()
    ensures { BuiltInMethodsKeepIn }
{}

/// The code of a consistent class set with the built-in methods keeps its duties: each request of each
/// plain run is fit.
pub fn programs_with_built_in_methods_ask_what_is_fit()
    ensures duties { BuiltInProgramsAskWhatIsFit }
    ensures worlds { BuiltInWorldsAreOf }
    ensures frames { BuiltInFramesStayIn }
{}

/// The items of the code are made and read as plain values are, where each object has a number.
pub fn items_are_alike()
    ensures { ItemsAreAlike }
{}
