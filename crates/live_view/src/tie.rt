// The rule that ties what is published to the beginning that each thread knows.
use crate::shown::Shown;
use atomic_table::{Join, Split};
use crossbeam_utils::rule::{Outcome, Protocol};

/// What is published stands for the acts of its front. A thread knows of the beginning, once it was told.
pub struct Tie;

impl Protocol<Shown, Option<Shown>> for Tie {
    ghost use Rattle.std.specs.Prelude.{None};
    ghost use Rattle.live_view.specs.Ties.{IsTied};

    ghost holds = { IsTied };

    ghost first = { None };
}

/// A step that takes what is published, or changes it.
pub struct Sees;

impl Outcome<Shown, Option<Shown>> for Sees {
    ghost use Rattle.live_view.specs.Ties.{Looks};

    ghost then = { Looks };
}

/// The writer's step before the first act.
pub struct Begins;

impl Outcome<Shown, Option<Shown>> for Begins {
    ghost use Rattle.live_view.specs.Ties.{Starts};

    ghost then = { Starts };
}

/// The writer tells what it knows of the beginning.
pub struct Tells;

impl Split<Option<Shown>> for Tells {
    ghost left = { λ v. v };

    ghost right = { λ v. v };
}

impl Join<Option<Shown>> for Tells {
    ghost use Rattle.std.specs.Prelude.{None};

    ghost both = { λ v w. w };

    ghost spent = { None };
}
