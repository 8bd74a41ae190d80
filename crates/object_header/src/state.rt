// The state of a volatile object.
ghost use Rattle.std.specs.Prelude.{◌≡◌, IfSome, Some};
ghost use Rattle.object_header.specs.States.{IsState, header_word};
ghost use Rattle.object_header.specs.declared.state.State.{State as ObjectState};

use ap_base::ThreadNo;

/// How far the conversion of a volatile object has come: by which thread, and the first line of its
/// copy.
#[derive(Clone, Copy, Debug, PartialEq, Eq)]
pub enum State {
    /// It lies in volatile memory alone, and no thread has claimed it.
    Ordinary,
    /// A thread has claimed it; the first line of its copy is not told here yet.
    Claimed(ThreadNo),
    /// Its copy has lines, and reads still go to volatile memory.
    Copying(ThreadNo, u32),
    /// It is forwarded: reads go to the copy. The thread hasn't sealed it.
    Converted(ThreadNo, u32),
    /// It is sealed.
    Durable(u32),
}

impl State {
    fn word(&self) -> u64
        ensures word { result ≡ header_word self.now }
    {
        match *self {
            State::Ordinary => 0,
            State::Claimed(t) => 1 + 8 * u64::from(t.number()),
            State::Copying(t, line) => 2 + 8 * u64::from(t.number()) + LINE * u64::from(line),
            State::Converted(t, line) => 3 + 8 * u64::from(t.number()) + LINE * u64::from(line),
            State::Durable(line) => 4 + LINE * u64::from(line),
        }
    }
}

/// The word of a state. That of `Ordinary` is 0, as are the words of a new object.
pub fn state_word(s: State) -> u64
    ensures word { result ≡ header_word s }
{
    s.word()
}

// What a line counts in a word.
const LINE: u64 = 4_294_967_296;

/// The state of a word. `None` exactly where no state has that word.
pub fn state_of(w: u64) -> Option<State>
    ensures found { IfSome result (λ s. IsState s × (header_word s ≡ w)) }
    ensures again { (s : ObjectState) → IsState s → header_word s ≡ w → result ≡ Some s }
{
    let thread = ThreadNo::new((w / 8 % 64) as u8)?;
    let line = (w / LINE) as u32;
    let state = match w % 8 {
        0 => State::Ordinary,
        1 => State::Claimed(thread),
        2 => State::Copying(thread, line),
        3 => State::Converted(thread, line),
        4 => State::Durable(line),
        _ => return None,
    };
    if state.word() == w { Some(state) } else { None }
}
