// What the types of a run are named by.
use std::marker::Brand;

/// What a run began with, and its sink then. Each call of `run_all` picks them.
pub trait Naming<S> {
    ghost use Rattle.std.specs.Prelude.{Option};
    ghost use Rattle.workers.specs.Held.{Began};

    ghost entry: { Option Began };

    ghost sink: { Option S };
}

impl<S> Naming<S> for Brand {
    ghost use Rattle.std.specs.Prelude.{None};

    ghost entry = { None };

    ghost sink = { None };
}

/// Which turnstile the host threads of a run share. It is picked once it is made.
pub trait Sharing {
    ghost use Rattle.std.specs.Prelude.{Option};
    ghost use Rattle.turnstile.specs.Passes.{TurnstileId};

    ghost turnstile: { Option TurnstileId };
}

impl Sharing for Brand {
    ghost use Rattle.std.specs.Prelude.{None};

    ghost turnstile = { None };
}
