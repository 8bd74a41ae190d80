// Keys: which are the same, and their buckets.
ghost use Rattle.std.specs.Prelude.{◌≡◌, ◌<◌};
ghost use Rattle.monitors.specs.Keys.{bucket_of, is_key, is_ref, key_number};

use ap_base::Ref;
use run_types::Key;

fn same_ref(a: Ref, b: Ref) -> bool
    ensures same { result ≡ is_ref a b }
{
    match (a, b) {
        (Ref::Null, Ref::Null) => true,
        (Ref::Persistent(m), Ref::Persistent(n)) | (Ref::Volatile(m), Ref::Volatile(n)) => m == n,
        _ => false,
    }
}

/// Whether two keys are the same.
pub fn same_key(a: Key, b: Key) -> bool
    ensures same { result ≡ is_key a b }
{
    match (a, b) {
        (Key::Object(r), Key::Object(s)) => same_ref(r, s),
        (Key::Class(m), Key::Class(n)) => m == n,
        _ => false,
    }
}

fn number(key: Key) -> u32
    ensures number { result ≡ key_number key }
{
    match key {
        Key::Object(Ref::Null) => 0,
        Key::Object(Ref::Persistent(n)) | Key::Object(Ref::Volatile(n)) | Key::Class(n) => n,
    }
}

/// The bucket of a key.
pub fn bucket(key: Key) -> usize
    ensures bucket { result ≡ bucket_of key }
    ensures below { result < 8192 }
{
    (u64::from(number(key)) * 2_654_435_769 % 4_294_967_296 / 524_288) as usize
}
