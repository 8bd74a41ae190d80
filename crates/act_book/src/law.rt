// The rule of the history, and what its one step tells.
use live_heap::Heard;
use logbook::{Gain, Plain, Play, Rule};

/// The first word is the length of the history.
pub struct Law;

impl Rule<Heard, u64> for Law {
    ghost use Rattle.std.specs.Prelude.{[]};
    ghost use base.Fml.{ftrue};
    ghost use Rattle.act_book.specs.Rules.{IsCounted};

    ghost holds = { λ cells log. IsCounted cells log };

    ghost first = { [] };

    ghost hinted = { λ n log. Unit {0} };

    ghost shows = { λ log. [] };

    ghost keeps = { λ names log. ftrue };

    ghost moves = { λ ask before after answer. Unit {0} };
}

/// Callers trade nothing.
pub struct Nothing;

impl Gain<Heard, u64> for Nothing {
    ghost use base.Fml.{ftrue};

    ghost after = { λ names about answer. ftrue };
}

/// The step that adds an act.
pub struct Add;

impl Play<Heard, u64> for Add {
    ghost use Rattle.act_book.specs.Rules.{Adds};

    ghost then = { Adds };
}

/// What the step asks for: the act.
impl Plain<Heard, Heard, u64> for Add {
    ghost use Rattle.std.specs.Prelude.{None};

    ghost ask = { λ heard. heard };

    ghost state = { λ heard. None };
}
