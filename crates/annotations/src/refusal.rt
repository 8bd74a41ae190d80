//! Why bytes are no annotations.

ghost use Rattle.std.specs.Prelude.{◌≡◌};
ghost use Rattle.annotations.specs.Annotations.{of_cut, of_item};

use class_items::ItemRefusal;
use parsing::Cut;
use thiserror::Error;

/// The first fault of the content of an attribute of annotations.
#[derive(Clone, Copy, Debug, PartialEq, Eq, Error)]
pub enum AnnotationRefusal {
    /// The content is no list of annotations: it ends within a field or has bytes left over, a tag is none of JVMS
    /// table 4.7.16.1-A, or values nest more than 64 deep.
    #[error("not a list of annotations")]
    BadForm,
    /// The index at an offset names no entry of the needed tag.
    #[error("the index {index} at offset {offset} names no entry of its kind")]
    BadIndex {
        /// Where the index stands, from the file's start.
        offset: usize,
        /// The index.
        index: u16,
    },
}

impl From<Cut> for AnnotationRefusal {
    ghost from_gives = { λ cut e. e ≡ of_cut cut };

    fn from(_cut: Cut) -> AnnotationRefusal {
        AnnotationRefusal::BadForm
    }
}

impl From<ItemRefusal> for AnnotationRefusal {
    ghost from_gives = { λ refusal e. e ≡ of_item refusal };

    fn from(refusal: ItemRefusal) -> AnnotationRefusal {
        match refusal {
            ItemRefusal::BadIndex { offset, index } => AnnotationRefusal::BadIndex {
                offset,
                index,
            },
            _ => AnnotationRefusal::BadForm,
        }
    }
}
