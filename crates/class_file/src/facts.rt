//! What the attributes of a field say of it (JVMS 4.7.2, 4.7.16, 4.7.17).

ghost use Rattle.std.specs.Prelude.{◌≡◌, ◌+◌, ◌^◌, ◌<◌, length, Err, Ok};
ghost use Rattle.class_file.specs.Refusals.{of_annotations};
ghost use Rattle.class_file.specs.Members.{fact_of, first_of, no_facts, with_fact};

use crate::refusal::ClassRefusal;
use crate::texts::is_text;
use annotations::{AnnotationRefusal, Marks, read_annotations};
use byteorder::{BigEndian, ByteOrder};
use class_items::RawAttribute;
use const_pool::Pool;

/// What an attribute says of its field.
#[derive(Clone, Copy)]
pub(crate) enum Fact {
    /// The index of the constant with which the field begins, and where it stands.
    Constant { offset: usize, index: u16 },
    /// Which of the runtime's annotations the field has.
    Marked(Marks),
    Nothing,
}

/// What the attributes of a field say together.
#[derive(Clone, Copy)]
pub(crate) struct Facts {
    /// Where the index of the first constant stands, and the index.
    pub(crate) constant: Option<(usize, u16)>,
    pub(crate) root: bool,
    pub(crate) unrecoverable: bool,
}

impl Facts {
    /// What no attribute says.
    pub(crate) fn none() -> Facts
        ensures { result ≡ no_facts }
    {
        Facts {
            constant: None,
            root: false,
            unrecoverable: false,
        }
    }

    /// What is known, and one more fact.
    pub(crate) fn with(self, fact: Fact) -> Facts
        ensures { result ≡ with_fact self fact }
    {
        match fact {
            Fact::Constant { offset, index } => Facts {
                constant: first_of(self.constant, (offset, index)),
                root: self.root,
                unrecoverable: self.unrecoverable,
            },
            Fact::Marked(marks) => Facts {
                constant: self.constant,
                root: self.root || marks.root,
                unrecoverable: self.unrecoverable || marks.unrecoverable,
            },
            Fact::Nothing => self,
        }
    }
}

fn first_of(before: Option<(usize, u16)>, found: (usize, u16)) -> Option<(usize, u16)>
    ensures { result ≡ first_of before found }
{
    match before {
        Some(before) => Some(before),
        None => Some(found),
    }
}

fn of_annotations(at: usize, refusal: AnnotationRefusal) -> ClassRefusal
    ensures { result ≡ of_annotations at refusal }
{
    match refusal {
        AnnotationRefusal::BadForm => ClassRefusal::BadAttribute(at),
        AnnotationRefusal::BadIndex { offset, index } => ClassRefusal::BadIndex { offset, index },
    }
}

/// What an attribute says of its field. The index of a constant is not judged.
#[tactic(auto, unfolding(crate::specs::Members::fact_of))]
pub(crate) fn fact_of(pool: &Pool, attribute: &RawAttribute) -> Result<Fact, ClassRefusal>
    requires { attribute.now.at + 6 + length attribute.now.content.now < 2 ^ 64 }
    ensures { result ≡ fact_of pool.now attribute.now.at
        (record { name = attribute.now.name; content = attribute.now.content.now }) }
{
    if is_text(pool, attribute.name, b"ConstantValue") {
        if attribute.content.len() != 2 {
            return Err(ClassRefusal::BadAttribute(attribute.at));
        }
        return Ok(Fact::Constant {
            offset: attribute.at + 6,
            index: BigEndian::read_u16(attribute.content),
        });
    }
    if is_text(pool, attribute.name, b"RuntimeVisibleAnnotations")
        || is_text(pool, attribute.name, b"RuntimeInvisibleAnnotations")
    {
        return match read_annotations(pool, attribute.at + 6, attribute.content) {
            Ok(marks) => Ok(Fact::Marked(marks)),
            Err(refusal) => Err(of_annotations(attribute.at, refusal)),
        };
    }
    Ok(Fact::Nothing)
}
