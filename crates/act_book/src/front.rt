// Beginnings of the history that were seen.
ghost use Rattle.std.specs.Prelude.{◌≡◌, ◌-◌, ◌<◌, ◌≤◌, ◌^◌, ◌++◌, ◌∷◌, ◌⊎◌, [], length, IfSome};
ghost use mathlib.Core.List.{IsPrefix};

use crate::law::{Add, Law, Nothing};
use live_heap::Heard;
use logbook::{Offer, Seen, Start, Word};
use std::marker::Model;

/// The word that counts the acts of a history. Contracts see it as the name of that history.
#[derive(Drop)]
pub struct Head {
    word: Word<Heard, u64, Law>,
}

impl Model for Head {
    ghost use Rattle.std.specs.Prelude.{◌≡◌};
    ghost use Rattle.logbook.specs.Pages.{Book};
    ghost use Rattle.act_book.specs.Rules.{head_of};

    ghost Value = { Book };

    ghost view = { λ h. h.word.book };

    ghost invariant = { λ h. h.word ≡ head_of h.word.book };
}

/// A beginning of a history that was seen. It keeps how many acts that has, and not the acts; contracts see these, and
/// which history it is.
#[derive(Drop)]
pub struct Front {
    acts: u64,
    seen: Seen<Heard, u64, Law>,
}

impl Model for Front {
    ghost use Rattle.std.specs.Prelude.{◌≡◌, length};
    ghost use Rattle.act_book.specs.Known.{Known};

    ghost Value = { Known };

    ghost view = { λ f. record { acts = f.seen.log; of = f.seen.book } };

    ghost invariant = { λ f. f.acts ≡ length f.seen.log };
}

/// A history without acts.
pub fn open() -> (Head, Front)
    ensures empty { result.1.acts ≡ [] }
    ensures of { result.0 ≡ result.1.of }
{
    let (seen, mut first, _second) = Seen::open(Start::alone(), 0, 0);
    let head = Head {
        word: Word::tracked(0, &mut first),
    };
    (head, Front { acts: 0, seen })
}

impl Front {
    /// How many acts it has.
    pub fn acts(&self) -> u64
        ensures { result ≡ length self.now.acts }
    {
        self.acts
    }

    /// A copy.
    pub fn again(&self) -> Front
        ensures { result ≡ self.now }
    {
        Front {
            acts: self.acts,
            seen: self.seen.again(),
        }
    }

    /// Of two beginnings of one history the shorter begins the longer. It does nothing.
    pub fn begins(&self, other: &Front)
        requires of { other.now.of ≡ self.now.of }
        requires shorter { length self.now.acts ≤ length other.now.acts }
        ensures { IsPrefix self.now.acts other.now.acts }
    {
        let mut both = self.seen.again();
        both.learn(&other.seen);
    }

    /// The longer of two beginnings of one history.
    #[tactic(auto, using(crate::proofs::Fronts::prefix_self))]
    pub fn longer(&self, other: &Front) -> Front
        requires of { other.now.of ≡ self.now.of }
        ensures one { (result ≡ self.now) ⊎ (result ≡ other.now) }
        ensures this { IsPrefix self.now.acts result.acts }
        ensures that { IsPrefix other.now.acts result.acts }
    {
        if self.acts < other.acts {
            self.begins(other);
            other.again()
        } else {
            other.begins(self);
            self.again()
        }
    }

    /// Adds an act to the history. `None` where the history is longer than this beginning of it.
    pub fn with(&self, head: &Head, heard: &Heard) -> Option<Front>
        requires of { head.now ≡ self.now.of }
        requires room { length self.now.acts < 2 ^ 64 - 1 }
        ensures { IfSome result (λ front.
            front ≡ record self.now { acts = self.now.acts ++ heard.now ∷ [] }) }
    {
        let mut seen = self.seen.again();
        let mut offer: Offer<Heard, u64, Law, Nothing> = seen.plain::<Nothing, Heard, Add>(heard);
        let mut pen = seen.no_pen();
        let acts = self.acts;
        let found = head
            .word
            .compare_exchange::<Add, Nothing>(acts, acts + 1, &mut seen, &mut offer, &mut pen);
        if found != acts {
            return None;
        }
        Some(Front {
            acts: acts + 1,
            seen,
        })
    }
}
