// The throwables that requests throw.
ghost use Rattle.std.specs.Prelude.{◌≡◌, ◌+◌};
ghost use Rattle.plain_model.specs.BuiltIn.{throwable_place};
ghost use Rattle.plain_model.specs.Facts.{thrown_place};

use plain_model::Throws;

/// How far the number of a throwable's class stands before that of Throwable. The built-in classes
/// are numbered by their names' bytes.
pub(crate) fn before_throwable(which: Throws) -> u32
    ensures { thrown_place which + result ≡ throwable_place }
{
    match which {
        Throws::Arithmetic => 23,
        Throws::ArrayIndexOutOfBounds => 22,
        Throws::ArrayStore => 21,
        Throws::ClassCast => 20,
        Throws::IllegalMonitorState => 15,
        Throws::IllegalState => 14,
        Throws::IllegalThreadState => 13,
        Throws::NegativeArraySize => 10,
        Throws::NullPointer => 9,
        Throws::StringIndexOutOfBounds => 3,
    }
}
