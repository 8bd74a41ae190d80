//! Laws of the arrays that threads ask to make. Each function states some in its contract, and does
//! nothing but cite others.

ghost use Rattle.launch_laws.specs.Asking.{TurnsAskSo, RunsAskForTheirArrays, ThreadsAskForTheirArrays};
ghost use Rattle.launch_laws.specs.Written.{CodeMakesWrittenArrays, CharsAreWritten};
ghost use Rattle.launch_laws.specs.Written.{RunsAskForWrittenArrays, ThreadsAskForWrittenArrays};

use graph_model::Value;
use natives::{Native, NativeState};

/// A turn asks for an array by an instruction that makes such, or by a native method; it starts
/// threads and begins and ends regions by native methods alone. M is the type of native methods, N
/// that of their states, R that of references and V that of values.
pub fn turns_ask_so<M, R, N, V>()
    ensures { TurnsAskSo M R N V }
{}

/// Each array that a thread of a plain run asks to make is of a type that an instruction of the
/// program makes, or of chars; and so it is where a machine stands for the run.
pub fn runs_ask_for_their_arrays()
    ensures runs { RunsAskForTheirArrays }
    ensures threads { ThreadsAskForTheirArrays }
{
    plain_frames::turns_are_fit::<Native, NativeState<Value>>();
    plain_frames::built_in_methods_keep_in();
    plain_frames::programs_with_built_in_methods_ask_what_is_fit();
    run_forms::machines_go_on_as_plain_runs();
}

/// The instructions of a linked set's decoded code make arrays only of types that have shapes in a
/// directory of the set, and the type of arrays of chars has one (JVMS 5.4.3.1, 6.5 anewarray). M
/// is the type of native methods.
pub fn code_makes_written_arrays<M>()
    ensures code { CodeMakesWrittenArrays M }
    ensures chars { CharsAreWritten }
{
    class_set::made_arrays_are_known();
}

/// So each array that a thread asks to make, in a run of a linked set, is of a type that has a shape
/// in a directory of the set.
pub fn asked_arrays_are_written()
    ensures runs { RunsAskForWrittenArrays }
    ensures threads { ThreadsAskForWrittenArrays }
{
    runs_ask_for_their_arrays();
    code_makes_written_arrays::<Native>();
}
