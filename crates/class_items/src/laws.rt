//! What is read stands there.

ghost use Rattle.std.specs.Prelude.{◌≡◌, ◌++◌, ◌^◌, ◌<◌, List, All, length, Ok};
ghost use Rattle.parsing.specs.Bytes.{IsBytes};
ghost use Rattle.parsing.specs.Places.{Place};
ghost use Rattle.const_pool.specs.Pool.{Slots};
ghost use Rattle.class_items.specs.declared.attribute.Attribute.{Attribute as OneAttribute};
ghost use Rattle.class_items.specs.Items.{attributes_at, attributes_bytes};

/// Attributes that are read are spelled so, each byte of them, and have the counts and lengths that a writer needs.
pub fn attributes_are_spelled()
    ensures spelled { (pool : Slots) (file : Place) (x : List OneAttribute × Place) → IsBytes file.1
        → attributes_at pool file ≡ Ok x → file.1 ≡ attributes_bytes x.0 ++ x.1.1 }
    ensures count { (pool : Slots) (file : Place) (x : List OneAttribute × Place) → IsBytes file.1
        → attributes_at pool file ≡ Ok x → length x.0 < 2 ^ 16 }
    ensures sizes { (pool : Slots) (file : Place) (x : List OneAttribute × Place) → IsBytes file.1
        → attributes_at pool file ≡ Ok x → All (λ (a : OneAttribute). length a.content < 2 ^ 32) x.0 }
{}
