// References and the words that hold them.
ghost use Rattle.std.specs.Prelude.{◌≡◌, IfSome, Some};
ghost use Rattle.ap_base.specs.References.{IsReference, HasWord, reference_word};
ghost use Rattle.ap_base.specs.declared.reference.Ref.{Ref as Reference};

/// A reference: null, the first line of an object in the image, or the first index of one in volatile memory.
#[derive(Clone, Copy, Debug, PartialEq, Eq)]
pub enum Ref {
    Null,
    Persistent(u32),
    Volatile(u32),
}

/// What an operand or a slot holds: an int, a long or a reference (JVMS 2.6.1).
#[derive(Clone, Copy, Debug, PartialEq, Eq)]
pub enum Item {
    Int(i32),
    Long(i64),
    Ref(Ref),
}

/// The word of a reference: 0, twice the line, or twice the index and one. No object lies at line 0.
pub fn word_of(r: Ref) -> u64
    requires { HasWord r }
    ensures word { result ≡ reference_word r }
{
    match r {
        Ref::Null => 0,
        Ref::Persistent(line) => u64::from(line) * 2,
        Ref::Volatile(index) => u64::from(index) * 2 + 1,
    }
}

/// The reference of a word. `None` exactly where no reference has that word.
pub fn ref_of(w: u64) -> Option<Ref>
    ensures found { IfSome result (λ r. IsReference r × (reference_word r ≡ w)) }
    ensures again { (r : Reference) → IsReference r → reference_word r ≡ w → result ≡ Some r }
{
    if w == 0 {
        return Some(Ref::Null);
    }
    let half = u32::try_from(w / 2).ok()?;
    if w % 2 == 0 {
        Some(Ref::Persistent(half))
    } else {
        Some(Ref::Volatile(half))
    }
}
