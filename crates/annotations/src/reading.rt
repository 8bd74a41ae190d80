//! An attribute of annotations (JVMS 4.7.16, 4.7.17).

ghost use Rattle.std.specs.Prelude.{◌≡◌, ◌+◌, ◌^◌, ◌<◌, length};
ghost use Rattle.annotations.specs.Annotations.{Gives, annotation_at, is_text, with_type, marks_from, annotations_in};

use crate::value::annotation;
use crate::{AnnotationRefusal, Marks};
use const_pool::Pool;
use parsing::Reader;

/// How deep values may nest.
const DEEPEST: u8 = 64;

fn has_text(pool: &Pool, text: &[u8], index: u16) -> bool
    ensures { result ≡ is_text pool.now text.now index }
{
    match pool.utf8(index) {
        Some(found) => found.as_slice() == text,
        None => false,
    }
}

/// The marks so far, and those of one more annotation, whose type's descriptor is at this index.
fn with_one_more(pool: &Pool, marks: Marks, kind: u16) -> Marks
    ensures { result ≡ with_type pool.now marks kind }
{
    Marks {
        root: marks.root || has_text(pool, b"Lautopersist/DurableRoot;", kind),
        unrecoverable: marks.unrecoverable || has_text(pool, b"Lautopersist/Unrecoverable;", kind),
    }
}

#[tactic(auto, unfolding(crate::specs::Annotations::annotation_at))]
fn own_annotation(pool: &Pool, file: &mut Reader) -> Result<u16, AnnotationRefusal>
    ensures { Gives (λ x. (x, file.new)) result (annotation_at pool.now file.old) }
{
    annotation(pool, DEEPEST, file)
}

/// So many annotations, of which the marks are kept.
#[tactic(auto, using(crate::proofs::Loops::marks_go_on, crate::proofs::Loops::marks_end, crate::proofs::Loops::marks_done))]
fn some_annotations(pool: &Pool, count: u16, file: &mut Reader) -> Result<Marks, AnnotationRefusal>
    ensures { Gives (λ marks. (marks, file.new)) result (marks_from pool.now count file.old) }
{
    let mut marks = Marks {
        root: false,
        unrecoverable: false,
    };
    for _ in 0..count {
        let kind = own_annotation(pool, file)?;
        marks = with_one_more(pool, marks, kind);
    }
    Ok(marks)
}

/// Tells which of the runtime's annotations are in the content of a `RuntimeVisibleAnnotations` or
/// `RuntimeInvisibleAnnotations` attribute (JVMS 4.7.16, 4.7.17) that begins at this offset of the file. It takes no
/// memory, and time linear in the content.
///
/// The first fault is the answer, from front to back: an index is judged where it stands, before what follows it, and
/// how deep a value stands where the value begins.
#[tactic(auto, unfolding(crate::specs::Annotations::annotations_in))]
pub fn read_annotations(pool: &Pool, at: usize, content: &[u8]) -> Result<Marks, AnnotationRefusal>
    requires { at + length content.now < 2 ^ 64 }
    ensures exact { result ≡ annotations_in pool.now (at, content.now) }
{
    let mut file = Reader::new(at, content);
    let count = file.u16()?;
    let marks = some_annotations(pool, count, &mut file)?;
    if !file.is_ended() {
        return Err(AnnotationRefusal::BadForm);
    }
    Ok(marks)
}
