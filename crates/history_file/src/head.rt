//! The first word of an act.

ghost use Rattle.std.specs.Prelude.{◌≡◌, ◌+◌, ◌*◌, ◌^◌, IfOk, IfSome, true};
ghost use Rattle.history_file.specs.Kinds.{code_of, may_have, named_count};
ghost use Rattle.history_file.specs.Reading.{Gives, head_in, head_at};

use crate::fault::Stop;
use crate::fields::{NUMBERS, word};
use crate::kind::Kind;
use ap_base::ThreadNo;

/// What the first word of an act says: its kind, its thread, and how many words it has.
#[derive(Clone, Copy)]
pub(crate) struct Head {
    pub(crate) kind: Kind,
    pub(crate) thread: ThreadNo,
    pub(crate) words: u32,
}

/// The word of a head: the code, the thread from bit 8 on, and the count of words from bit 32 on.
pub(crate) fn head_word(kind: Kind, thread: ThreadNo, words: u32) -> u64
    ensures { result ≡ code_of kind + 256 * thread + 2 ^ 32 * words }
{
    let code = u64::from(kind.code());
    let thread = u64::from(thread.number());
    code + 256 * thread + NUMBERS * u64::from(words)
}

impl Head {
    /// How many objects stand behind the fields of an act that names some.
    pub(crate) fn named_count(&self) -> u32
        requires { may_have self.now.kind self.now.words ≡ true }
        ensures { result ≡ named_count self.now.kind self.now.words }
    {
        match self.kind {
            Kind::Joined => self.words - 3,
            _ => 0,
        }
    }
}

// The head in a word. `None` exactly where it is none.
fn head_in(word: u64) -> Option<Head>
    ensures sized { IfSome result (λ head. may_have head.kind head.words ≡ true) }
    ensures read { result ≡ head_in word }
{
    let kind = Kind::with_code((word % 256) as u8)?;
    let thread = ThreadNo::new((word / 256 % 64) as u8)?;
    let words = (word / NUMBERS) as u32;
    if kind.may_have(words) && head_word(kind, thread, words) == word {
        Some(Head {
            kind,
            thread,
            words,
        })
    } else {
        None
    }
}

/// The head of an act.
#[tactic(auto, unfolding(crate::specs::Reading::head_at))]
pub(crate) fn read_head(bytes: &[u8]) -> Result<(Head, &[u8]), Stop>
    ensures sized { IfOk result (λ x. may_have x.0.kind x.0.words ≡ true) }
    ensures read { Gives (λ x. (x.0, x.1.now)) result (head_at bytes.now) }
{
    let (first, rest) = word(bytes)?;
    match head_in(first) {
        Some(head) => Ok((head, rest)),
        None => Err(Stop::At(bytes.len())),
    }
}
