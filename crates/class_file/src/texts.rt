//! Questions about the texts and descriptors of a constant pool.

ghost use Rattle.std.specs.Prelude.{◌≡◌};
ghost use Rattle.class_items.specs.Kinds.{AreKindsOf, kind_at};
ghost use Rattle.class_file.specs.Members.{is_text};

use class_items::{DescriptorKind, DescriptorKinds};
use const_pool::Pool;

/// Whether the text at an index is this one.
pub(crate) fn is_text(pool: &Pool, index: u16, text: &[u8]) -> bool
    ensures { result ≡ is_text pool.now index text.now }
{
    match pool.utf8(index) {
        Some(found) => found.as_slice() == text,
        None => false,
    }
}

/// What the text at an index is as a descriptor.
pub(crate) fn kind_at(pool: &Pool, kinds: &DescriptorKinds, index: u16) -> DescriptorKind
    requires { AreKindsOf pool.now kinds.now }
    ensures { result ≡ kind_at pool.now index }
{
    let _pool = pool;
    kinds.get(index)
}
