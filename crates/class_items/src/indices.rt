//! Indices into the constant pool.

ghost use Rattle.std.specs.Prelude.{◌≡◌, None};
ghost use Rattle.parsing.specs.Results.{Gives};
ghost use Rattle.const_pool.specs.Pool.{entry_at, is_tagged};
ghost use Rattle.class_items.specs.Items.{index_at};

use crate::ItemRefusal;
use const_pool::{Pool, Tag};
use parsing::Reader;

/// Whether the entry at an index is there and of this kind.
pub fn is_tagged(pool: &Pool, index: u16, tag: Tag) -> bool
    ensures { result ≡ is_tagged (entry_at pool.now index) tag }
{
    match pool.get(index) {
        Some(entry) => entry.tag() as u8 == tag as u8,
        None => false,
    }
}

/// An index, `BadIndex` exactly where it names no entry of this kind. It takes no memory.
#[tactic(auto, unfolding(crate::specs::Items::index_at))]
pub fn index(pool: &Pool, tag: Tag, file: &mut Reader) -> Result<u16, ItemRefusal>
    ensures { Gives None (λ x. (x, file.new)) result (index_at pool.now tag file.old) }
{
    let offset = file.at();
    let index = file.u16()?;
    if !is_tagged(pool, index, tag) {
        return Err(ItemRefusal::BadIndex { offset, index });
    }
    Ok(index)
}
