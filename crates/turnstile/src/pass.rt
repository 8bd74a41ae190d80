// Passes.
ghost use Rattle.std.specs.Prelude.{◌≡◌, ◌+◌, length};
ghost use Rattle.turnstile.specs.Views.{slots_out};

use crate::kept::Kept;
use crate::view::View;
use atomic_table::Seat;

/// The right of one worker to enter a turnstile. A stock of further numbers goes with it, for each of which a pass may be split from it.
#[derive(Drop)]
pub struct Pass<T: Kept> {
    pub(crate) seat: Seat<Option<T>, View<T::Entry, T::Part>>,
    pub(crate) further: u64,
    ghost counted: { length seat.me.0.hands ≡ 1 + further },
    ghost slots: { seat.me.1 ≡ slots_out seat.me.0.phase },
}

impl<T: Kept> Pass<T> {
    ghost use Rattle.turnstile.specs.Passes.{hands_of};

    /// How many passes may still be split from this one.
    pub fn further(&self) -> u64
        ensures { 1 + result ≡ length (hands_of self.now) }
    {
        self.further
    }
}
