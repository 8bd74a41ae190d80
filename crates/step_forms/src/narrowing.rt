// What a place keeps of an item.
ghost use Rattle.std.specs.Prelude.{◌≡◌};
ghost use Rattle.std.specs.Int.{int_wrap, w8, w16};
ghost use Rattle.plain_model.specs.Kinds.{narrowed};
ghost use Rattle.shared_objects.specs.Shown.{IsKnownItem, Numbers, item_value};

use ap_base::{Item, Kind};

fn to_byte(i: i32) -> i32
    ensures { result ≡ int_wrap w8 i }
{
    let low = i.rem_euclid(256).unsigned_abs() as u8;
    i32::from(low.cast_signed())
}

fn to_short(i: i32) -> i32
    ensures { result ≡ int_wrap w16 i }
{
    let low = i.rem_euclid(65536).unsigned_abs() as u16;
    i32::from(low.cast_signed())
}

/// What a place of a kind keeps of an item (JVMS 2.11.1): a boolean place the lowest bit, a byte,
/// char or short place the lowest
/// 8 or 16 bits.
pub fn narrow(kind: Kind, item: Item) -> Item
    ensures value { (number : Numbers) → item_value number result ≡ narrowed kind (item_value
        number item) }
    ensures known { (number : Numbers) → IsKnownItem number item → IsKnownItem number result }
{
    match item {
        Item::Int(i) => match kind {
            Kind::Z => Item::Int(i.rem_euclid(2)),
            Kind::B => Item::Int(to_byte(i)),
            Kind::C => Item::Int(i.rem_euclid(65536)),
            Kind::S => Item::Int(to_short(i)),
            _ => item,
        },
        _ => item,
    }
}
