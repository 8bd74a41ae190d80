//! What the beginning of a run asks of a class set besides its look-ups.

ghost use Rattle.std.specs.Prelude.{◌≡◌, ◌≤◌, ◌<◌, ◌^◌, ℕ, List, length, All, IfOk};
ghost use Rattle.class_set.specs.Facts.{facts_of};
ghost use Rattle.class_set.specs.Linked.{Linked};
ghost use Rattle.class_set.specs.Literals.{chars_of};
ghost use Rattle.class_set.specs.Sets.{IsLinked};
ghost use Rattle.class_set.specs.Tables.{IsSmall};

use crate::ClassSet;
use crate::literals::front_char;
use ap_base::ListOf;
use std::alloc::{AllocError, Global};

/// The UTF-16 code units that a text in modified UTF-8 spells (JVMS 4.4.7).
fn chars_of(alloc: Global, text: &[u8]) -> Result<ListOf<u16>, AllocError>
    ensures { IfOk result (λ chars. chars ≡ chars_of text.now) }
{
    let mut chars = Vec::new(alloc);
    let mut rest = text;
    while !rest.is_empty() {
        let (char, size) = front_char(rest);
        chars.push(char)?;
        rest = &rest[size..];
    }
    Ok(ListOf::from_vec(chars))
}

impl ClassSet {
    /// How many files there are: at most 4,096, each with as many members as a class file has room for
    /// (JVMS 4.1). They are linked.
    pub fn file_count(&self) -> usize
        ensures count { result ≡ length self.now.files }
        ensures few { length self.now.files ≤ 4096 }
        ensures small { All IsSmall self.now.files }
        ensures linked { IsLinked self.now }
    {
        self.files.len()
    }

    /// The UTF-16 code units of the string literals, in their order.
    pub fn literals(&self, alloc: Global) -> Result<ListOf<ListOf<u16>>, AllocError>
        ensures { IfOk result (λ literals. literals ≡ (facts_of self.now).literals) }
    {
        let mut literals = Vec::new(alloc);
        for text in self.literals.as_slice() {
            literals.push(chars_of(alloc, text.as_slice())?)?;
        }
        Ok(ListOf::from_vec(literals))
    }
}

/// A string literal of a linked set has fewer than 2^16 chars: a class file has room for 65,535 bytes
/// of each (JVMS 4.4.7).
pub fn literals_are_short()
    ensures { (set : Linked) → IsLinked set
        → All (λ (text : List ℕ). length text < 2 ^ 16) (facts_of set).literals }
{}
