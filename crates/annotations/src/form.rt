//! The forms of element values (JVMS 4.7.16.1).

ghost use Rattle.std.specs.Prelude.{◌≡◌};
ghost use Rattle.annotations.specs.Annotations.{form_of, known};

use crate::AnnotationRefusal;
use const_pool::Tag;

/// What follows a value's tag.
#[derive(Clone, Copy)]
pub(crate) enum ValueForm {
    /// An index of an entry of this kind.
    Constant(Tag),
    /// The indices of an enum's type and of its constant's name.
    EnumConstant,
    /// An annotation.
    Nested,
    /// A count, and so many values.
    Array,
}

fn form_of(tag: u8) -> Option<ValueForm>
    ensures { result ≡ form_of tag }
{
    match tag {
        b'B' | b'C' | b'I' | b'S' | b'Z' => Some(ValueForm::Constant(Tag::Integer)),
        b'D' => Some(ValueForm::Constant(Tag::Double)),
        b'F' => Some(ValueForm::Constant(Tag::Float)),
        b'J' => Some(ValueForm::Constant(Tag::Long)),
        b's' | b'c' => Some(ValueForm::Constant(Tag::Utf8)),
        b'e' => Some(ValueForm::EnumConstant),
        b'@' => Some(ValueForm::Nested),
        b'[' => Some(ValueForm::Array),
        _ => None,
    }
}

/// The form that a tag stands for (JVMS table 4.7.16.1-A).
pub(crate) fn known_form(tag: u8) -> Result<ValueForm, AnnotationRefusal>
    ensures { result ≡ known (form_of tag) }
{
    match form_of(tag) {
        Some(form) => Ok(form),
        None => Err(AnnotationRefusal::BadForm),
    }
}
