// The fields of built-in classes that their methods use.
ghost use Rattle.std.specs.Prelude.{◌≡◌};
ghost use Rattle.natives.specs.Scripts.{field, value_field, count_field, target_field, message_field};

use ap_base::Kind;
use run_types::{FieldAt, Known};

fn field(class: u32, at: u32, kind: Kind) -> FieldAt
    ensures { result ≡ field class at kind }
{
    FieldAt {
        class,
        is_static: false,
        at,
        kind,
    }
}

/// A StringBuilder's array of chars.
pub(crate) fn value_field(known: &Known) -> FieldAt
    ensures { result ≡ value_field known.now }
{
    field(known.builder, 0, Kind::L)
}

/// How many chars a StringBuilder has.
pub(crate) fn count_field(known: &Known) -> FieldAt
    ensures { result ≡ count_field known.now }
{
    field(known.builder, 1, Kind::I)
}

/// What a Thread runs.
pub(crate) fn target_field(known: &Known) -> FieldAt
    ensures { result ≡ target_field known.now }
{
    field(known.thread, 0, Kind::L)
}

/// A Throwable's message.
pub(crate) fn message_field(known: &Known) -> FieldAt
    ensures { result ≡ message_field known.now }
{
    field(known.throwable, 0, Kind::L)
}
