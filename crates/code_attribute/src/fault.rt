//! Why the content of an attribute is no code.

ghost use Rattle.std.specs.Prelude.{◌≡◌};
ghost use Rattle.code_attribute.specs.declared.fault.CodeFault.TheVariants.{OutOfMemory};
ghost use Rattle.code_attribute.specs.Code.{of_cut, of_item, of_code};

use class_items::ItemRefusal;
use code_form::CodeRefusal;
use parsing::Cut;
use std::alloc::{AllocError, AllocFailed};
use thiserror::Error;

/// The first fault of a Code attribute's content.
#[derive(Clone, Copy, Debug, PartialEq, Eq, Error)]
pub enum CodeFault {
    /// The content ends within a field or has bytes left over, the code has no bytes or more than 65,535, or an entry of the
    /// exception table covers no instructions or names a place where none begins (JVMS 4.7.3).
    #[error("the attribute is not of its form")]
    BadForm,
    /// The index at an offset from the file's start names no entry of the needed tag.
    #[error("the index {index} at offset {offset} names no entry of its kind")]
    BadIndex {
        /// Where the index stands.
        offset: usize,
        /// The index.
        index: u16,
    },
    /// The bytes are no code.
    #[error("{0}")]
    Code(CodeRefusal),
    /// The index of the instruction at this pc names no entry of a tag that it may use (JVMS 6.5).
    #[error("the instruction at {0} names no entry of its kind")]
    BadOperand(u32),
    /// An instruction names a member whose descriptor, at this index, is none of a field or of a method, as it needs.
    #[error("the text at index {0} is no descriptor")]
    BadDescriptor(u16),
    /// No memory was left.
    #[error("out of memory")]
    OutOfMemory,
}

impl From<Cut> for CodeFault {
    ghost from_gives = { λ given made. made ≡ of_cut given };

    /// Within the attribute a field that is cut off is a fault of the attribute's form.
    fn from(_cut: Cut) -> CodeFault {
        CodeFault::BadForm
    }
}

impl From<ItemRefusal> for CodeFault {
    ghost from_gives = { λ given made. made ≡ of_item given };

    fn from(refusal: ItemRefusal) -> CodeFault {
        match refusal {
            ItemRefusal::Truncated(_) => CodeFault::BadForm,
            ItemRefusal::BadIndex { offset, index } => CodeFault::BadIndex { offset, index },
            ItemRefusal::OutOfMemory => CodeFault::OutOfMemory,
        }
    }
}

impl From<CodeRefusal> for CodeFault {
    ghost from_gives = { λ given made. made ≡ of_code given };

    fn from(refusal: CodeRefusal) -> CodeFault {
        match refusal {
            CodeRefusal::OutOfMemory => CodeFault::OutOfMemory,
            refusal => CodeFault::Code(refusal),
        }
    }
}

impl From<AllocError> for CodeFault {
    ghost from_gives = { λ _ e. e ≡ OutOfMemory };

    fn from(_e: AllocError) -> CodeFault {
        CodeFault::OutOfMemory
    }
}

impl<T: Drop> From<AllocFailed<T>> for CodeFault {
    ghost from_gives = { λ _ e. e ≡ OutOfMemory };

    fn from(_e: AllocFailed<T>) -> CodeFault {
        CodeFault::OutOfMemory
    }
}
