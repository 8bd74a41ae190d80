// Room for a name.
ghost use Rattle.std.specs.Prelude.{◌≡◌, ◌+◌, ◌≤◌, ◌++◌, [], length, take, vec_len, vec_capacity, Option};
ghost use Rattle.std.specs.Option.{option_map};
ghost use Rattle.statuses.specs.Names.{described, member_name, shortened};

use ap_base::Bytes;
use std::alloc::{AllocError, Global};

// Three texts of a class file (JVMS 4.4.7) and a dot.
const MOST: usize = 196_606;

/// A member's name and its descriptor.
pub(crate) type Texts<'a> = (&'a [u8], &'a [u8]);

/// Room for the longest name that a status may have, so that a run ends without taking memory.
#[derive(Drop)]
pub struct NameRoom {
    text: Vec<u8>,
    ghost empty: { text.items ≡ [] },
    ghost room: { 196606 ≤ vec_capacity text },
}

/// The front of a text, of at most so many bytes.
fn front(text: &[u8], most: usize) -> &[u8]
    ensures front { result.now ≡ take most text.now }
    ensures within { length result.now ≤ most }
{
    if text.len() <= most {
        text
    } else {
        &text[..most]
    }
}

/// Adds a text as far as there is room for it, which takes no memory.
fn put(out: &mut Vec<u8>, text: &[u8])
    requires room { 196606 ≤ vec_capacity out.old }
    requires within { vec_len out.old ≤ 196606 }
    ensures put { out.new.items ≡ shortened (out.old.items ++ text.now) }
    ensures room { 196606 ≤ vec_capacity out.new }
    ensures within { vec_len out.new ≤ 196606 }
{
    let left = MOST - out.len();
    let _ = out.extend_from_slice(front(text, left));
}

impl NameRoom {
    /// Takes the memory for the longest name.
    pub fn reserve(alloc: Global) -> Result<NameRoom, AllocError> {
        Ok(NameRoom {
            text: Vec::with_capacity(alloc, MOST)?,
        })
    }

    /// A name. Takes no memory.
    pub(crate) fn tell(self, name: &[u8]) -> Bytes
        ensures { result ≡ shortened name.now }
    {
        let NameRoom { mut text } = self;
        put(&mut text, name);
        Bytes::from_vec(text)
    }

    /// The name of a class's member. Takes no memory.
    fn tell_texts(self, class: &[u8], name: &[u8], descriptor: &[u8]) -> Bytes
        ensures { result ≡ shortened (member_name class.now name.now descriptor.now) }
    {
        let NameRoom { mut text } = self;
        put(&mut text, class);
        put(&mut text, b".");
        put(&mut text, name);
        put(&mut text, descriptor);
        Bytes::from_vec(text)
    }

    /// The same, where there is one with this name and descriptor.
    pub(crate) fn tell_member(self, class: &[u8], member: Option<Texts<'_>>) -> Bytes
        ensures { result ≡ shortened (described class.now
            (option_map (λ texts. (texts.0.now, texts.1.now)) member.entry)) }
    {
        match member {
            Some((name, descriptor)) => self.tell_texts(class, name, descriptor),
            None => self.tell(&[]),
        }
    }
}
