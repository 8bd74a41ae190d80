// The rule of a turnstile's words and slot, and its steps.
use crate::kept::Kept;
use crate::view::View;
use atomic_table::{Join, Play, Split, TableRule};
use std::marker::PhantomData;
use std::snapshot::Snapshot;

/// The rule. It is told how many passes there may be, and of the first value.
pub struct Law<T> {
    of: PhantomData<T>,
}

impl<T: Kept> TableRule<Option<T>, View<T::Entry, T::Part>, (u64, Snapshot<T>)> for Law<T> {
    ghost use Rattle.turnstile.specs.Views.{idle_with};
    ghost use Rattle.turnstile.specs.Hands.{hands_from};
    ghost use Rattle.turnstile.specs.Rules.{Keeps};

    ghost holds = { λ key s. Keeps T.worker T.entries T.parts key.0 s };

    ghost first = { λ key. idle_with (hands_from 0 (T.parts key.1.value)) };
}

/// A ticket is drawn.
pub struct Draw;

impl<T: Kept> Play<Option<T>, View<T::Entry, T::Part>> for Draw {
    ghost use Rattle.turnstile.specs.Rules.{Drawn};

    ghost then = { Drawn T.worker T.entries T.parts };
}

/// A look at the ticket that is served.
pub struct Look;

impl<T: Kept> Play<Option<T>, View<T::Entry, T::Part>> for Look {
    ghost use Rattle.turnstile.specs.Rules.{Looked};

    ghost then = { Looked T.worker T.entries T.parts };
}

/// The next ticket is served.
pub struct Raise;

impl<T: Kept> Play<Option<T>, View<T::Entry, T::Part>> for Raise {
    ghost use Rattle.turnstile.specs.Rules.{Raised};

    ghost then = { Raised T.worker T.entries T.parts };
}

/// The least number of a pass's stock goes to a pass of its own.
pub struct Cut;

impl<E, P> Split<View<E, P>> for Cut {
    ghost use Rattle.turnstile.specs.Views.{cut_left, cut_right};

    ghost left = { cut_left };

    ghost right = { cut_right };
}

/// One pass takes in the hands of another.
pub struct Close;

impl<E, P> Join<View<E, P>> for Close {
    ghost use Rattle.std.specs.Prelude.{[]};
    ghost use Rattle.turnstile.specs.Views.{joined, idle_with};

    ghost both = { joined };

    ghost spent = { idle_with [] };
}
