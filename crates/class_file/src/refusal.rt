//! Why bytes are no class file.

ghost use Rattle.std.specs.Prelude.{◌≡◌};
ghost use Rattle.class_file.specs.declared.refusal.ClassRefusal.TheVariants.{OutOfMemory};
ghost use Rattle.class_file.specs.Refusals.{of_cut, of_item, of_pool};

use class_items::ItemRefusal;
use code_form::CodeRefusal;
use const_pool::PoolRefusal;
use parsing::Cut;
use std::alloc::{AllocError, AllocFailed};
use thiserror::Error;

/// The first fault of a class file, from front to back. Offsets count from the file's start; indices are those of the
/// constant pool; fields and methods are numbered from 0 in the order in which the class declares them.
#[derive(Clone, Copy, Debug, PartialEq, Eq, Error)]
pub enum ClassRefusal {
    /// The constant pool is refused.
    #[error("{0}")]
    Pool(PoolRefusal),
    /// The file ends within the field that begins at this offset.
    #[error("the field at offset {0} is cut off")]
    Truncated(usize),
    /// The file doesn't begin with CAFEBABE.
    #[error("no class file")]
    BadMagic,
    /// Another version than 52.0.
    #[error("version {major}.{minor}")]
    BadVersion { major: u16, minor: u16 },
    /// The index at an offset names no entry of the needed tag, or it is the class's own entry or a field's name and the name
    /// has a byte that it may not have (JVMS 4.2).
    #[error("the index {index} at offset {offset} names no entry of its kind")]
    BadIndex { offset: usize, index: u16 },
    /// The text at this index is not the descriptor of a field or a method, as its place needs.
    #[error("the text at index {0} is no descriptor")]
    BadDescriptor(u16),
    /// The attribute that begins at this offset is not of its form, or a Code stands where there is one already or none may be; or the
    /// method that begins at this offset has no Code and needs one.
    #[error("bad attribute at offset {0}")]
    BadAttribute(usize),
    /// The code of this method is refused.
    #[error("method {method}: {refusal}")]
    Code { method: u16, refusal: CodeRefusal },
    /// The index of the instruction at this pc of a method names no entry of a tag that it may use.
    #[error("method {method}: the instruction at {pc} names no entry of its kind")]
    BadOperand { method: u16, pc: u32 },
    /// This field is a durable root, and isn't static or of a reference type, or has the name of an earlier durable root.
    #[error("field {0} is no durable root")]
    RootNotReference(u16),
    /// The file goes on at this offset, behind the class.
    #[error("bytes are left over at offset {0}")]
    TrailingBytes(usize),
    /// No memory was left.
    #[error("out of memory")]
    OutOfMemory,
}

impl From<Cut> for ClassRefusal {
    ghost from_gives = { λ cut e. e ≡ of_cut cut };

    fn from(cut: Cut) -> ClassRefusal {
        ClassRefusal::Truncated(cut.at)
    }
}

impl From<ItemRefusal> for ClassRefusal {
    ghost from_gives = { λ given made. made ≡ of_item given };

    fn from(refusal: ItemRefusal) -> ClassRefusal {
        match refusal {
            ItemRefusal::Truncated(at) => ClassRefusal::Truncated(at),
            ItemRefusal::BadIndex { offset, index } => ClassRefusal::BadIndex { offset, index },
            ItemRefusal::OutOfMemory => ClassRefusal::OutOfMemory,
        }
    }
}

impl From<PoolRefusal> for ClassRefusal {
    ghost from_gives = { λ given made. made ≡ of_pool given };

    fn from(refusal: PoolRefusal) -> ClassRefusal {
        match refusal {
            PoolRefusal::OutOfMemory => ClassRefusal::OutOfMemory,
            refusal => ClassRefusal::Pool(refusal),
        }
    }
}

impl From<AllocError> for ClassRefusal {
    ghost from_gives = { λ _ e. e ≡ OutOfMemory };

    fn from(_e: AllocError) -> ClassRefusal {
        ClassRefusal::OutOfMemory
    }
}

impl<T: Drop> From<AllocFailed<T>> for ClassRefusal {
    ghost from_gives = { λ _ e. e ≡ OutOfMemory };

    fn from(_e: AllocFailed<T>) -> ClassRefusal {
        ClassRefusal::OutOfMemory
    }
}
