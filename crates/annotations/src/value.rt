//! Element values and the annotations that they stand in (JVMS 4.7.16, 4.7.16.1), which are read over.

ghost use Rattle.std.specs.Prelude.{◌≡◌};
ghost use Rattle.annotations.specs.Annotations.{Gives, after_counted, after_pair, annotation_of, after_content, after_value};

use crate::AnnotationRefusal;
use crate::form::{ValueForm, known_form};
use class_items::index;
use const_pool::{Pool, Tag};
use parsing::Reader;

/// A value, from which on values may nest so deep. Each takes its tag from what is left, so however many a count
/// promises, the time is linear in the content.
#[cycle(value)]
#[tactic(auto, unfolding(crate::specs::Annotations::after_value))]
fn value(pool: &Pool, deep: u8, file: &mut Reader) -> Result<(), AnnotationRefusal>
    ensures { Gives (λ _. file.new) result (after_value pool.now deep file.old) }
{
    if deep == 0 {
        return Err(AnnotationRefusal::BadForm);
    }
    let tag = file.u8()?;
    let form = known_form(tag)?;
    content(pool, form, deep - 1, file)
}

/// What follows a value's tag, in which values may nest so deep.
#[cycle(value)]
#[tactic(auto, unfolding(crate::specs::Annotations::after_content))]
fn content(
    pool: &Pool,
    form: ValueForm,
    deep: u8,
    file: &mut Reader,
) -> Result<(), AnnotationRefusal>
    ensures { Gives (λ _. file.new) result
        (after_content (after_value pool.now deep) pool.now form file.old) }
{
    match form {
        ValueForm::Constant(kind) => {
            index(pool, kind, file)?;
            Ok(())
        }
        ValueForm::EnumConstant => {
            index(pool, Tag::Utf8, file)?;
            index(pool, Tag::Utf8, file)?;
            Ok(())
        }
        ValueForm::Nested => {
            annotation(pool, deep, file)?;
            Ok(())
        }
        ValueForm::Array => values(pool, deep, file),
    }
}

/// A count, and so many values.
#[cycle(value)]
#[tactic(auto, unfolding(crate::specs::Annotations::after_counted), using(crate::proofs::Loops::goes_on, crate::proofs::Loops::ends, crate::proofs::Loops::is_done))]
fn values(pool: &Pool, deep: u8, file: &mut Reader) -> Result<(), AnnotationRefusal>
    ensures { Gives (λ _. file.new) result (after_counted (after_value pool.now deep) file.old) }
{
    let count = file.u16()?;
    for _ in 0..count {
        value(pool, deep, file)?;
    }
    Ok(())
}

/// The name of an annotation's element, and its value.
#[cycle(value)]
#[tactic(auto, unfolding(crate::specs::Annotations::after_pair))]
fn pair(pool: &Pool, deep: u8, file: &mut Reader) -> Result<(), AnnotationRefusal>
    ensures { Gives (λ _. file.new) result (after_pair (after_value pool.now deep) pool.now file.old) }
{
    index(pool, Tag::Utf8, file)?;
    value(pool, deep, file)
}

/// A count, and so many pairs.
#[cycle(value)]
#[tactic(auto, unfolding(crate::specs::Annotations::after_counted), using(crate::proofs::Loops::goes_on, crate::proofs::Loops::ends, crate::proofs::Loops::is_done))]
fn pairs(pool: &Pool, deep: u8, file: &mut Reader) -> Result<(), AnnotationRefusal>
    ensures { Gives (λ _. file.new) result
        (after_counted (after_pair (after_value pool.now deep) pool.now) file.old) }
{
    let count = file.u16()?;
    for _ in 0..count {
        pair(pool, deep, file)?;
    }
    Ok(())
}

/// An annotation, in whose pairs values may nest so deep: the index of its type's descriptor.
#[cycle(value)]
#[tactic(auto, unfolding(crate::specs::Annotations::annotation_of))]
pub(crate) fn annotation(pool: &Pool, deep: u8, file: &mut Reader) -> Result<u16, AnnotationRefusal>
    ensures { Gives (λ x. (x, file.new)) result
        (annotation_of (after_value pool.now deep) pool.now file.old) }
{
    let kind = index(pool, Tag::Utf8, file)?;
    pairs(pool, deep, file)?;
    Ok(kind)
}
