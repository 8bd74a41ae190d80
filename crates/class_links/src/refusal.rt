//! Why class files don't link.

ghost use Rattle.std.specs.Prelude.{◌≡◌};
ghost use Rattle.class_links.specs.declared.refusal.LinkRefusal.TheVariants.{OutOfMemory as NoMemory};

use ap_base::Bytes;
use std::alloc::{AllocError, AllocFailed};
use thiserror::Error;

/// The first condition of linking that class files break, in the order in which they are checked. Classes are told by their names
/// in internal form (JVMS 4.2.1).
#[derive(Drop, Debug, Error)]
pub enum LinkRefusal {
    /// A class has the name of a built-in class or of a class before it.
    #[error("a class is there twice")]
    DuplicateClass { class: Bytes },
    /// No class has the name of this superclass or superinterface.
    #[error("a superclass or superinterface is missing")]
    MissingSuper { class: Bytes, super_class: Bytes },
    /// The superclass is an interface, or a superinterface is none.
    #[error("a superclass is an interface, or a superinterface is none")]
    SuperKind { class: Bytes, super_class: Bytes },
    /// The superclass is final.
    #[error("a superclass is final")]
    FinalSuper { class: Bytes, super_class: Bytes },
    /// The class is its own superclass or superinterface, directly or not.
    #[error("a class is its own superclass")]
    CircularSuper { class: Bytes },
    /// An interface has a method with code that isn't named `<clinit>`.
    #[error("an interface has code")]
    InterfaceCode { class: Bytes },
    #[error("no memory is left")]
    OutOfMemory,
}

impl From<AllocError> for LinkRefusal {
    ghost from_gives = { λ _ e. e ≡ NoMemory };

    fn from(_: AllocError) -> Self {
        LinkRefusal::OutOfMemory
    }
}

impl<T: Drop> From<AllocFailed<T>> for LinkRefusal {
    ghost from_gives = { λ _ e. e ≡ NoMemory };

    fn from(_: AllocFailed<T>) -> Self {
        LinkRefusal::OutOfMemory
    }
}
