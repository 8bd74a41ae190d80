// The decoded code of a class set, with the built-in methods.
ghost use Rattle.std.specs.Prelude.{◌≡◌, IfOk, IsErrOf};
ghost use Rattle.class_code.specs.Sizes.{IsTooLarge};
ghost use Rattle.natives.specs.Methods.{native_at};
ghost use Rattle.program_launch.specs.Launches.{set_program};

use class_code::{DecodeRefusal, NativeMethods, decode};
use class_set::ClassSet;
use frames::Program;
use natives::{Native, native_of};
use std::alloc::Global;

/// The built-in methods that ask something of the heap.
struct BuiltIns;

impl NativeMethods<Native> for BuiltIns {
    ghost native_at = { λ natives place number. native_at place number };

    fn native(&self, place: u8, number: u32) -> Option<Native> {
        native_of(place, number)
    }
}

/// The code of a class set, decoded for its frames: that of its class files, and behind it the built-in methods.
///
/// # Errors
///
/// `TooLarge` only where the set's methods have 2^32 instructions or more, with an end for each; want of memory.
pub fn program_of(alloc: Global, set: &ClassSet) -> Result<Program<Native>, DecodeRefusal>
    ensures program { IfOk result (λ program. program ≡ set_program set.now) }
    ensures too_large { IsErrOf result DecodeRefusal.TooLarge → IsTooLarge set.now }
{
    decode(alloc, set, &BuiltIns)
}
