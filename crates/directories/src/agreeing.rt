// Which shapes of a directory agree with a class set.
ghost use Rattle.std.specs.Prelude.{◌≡◌, ◌<◌, ◌-◌, ◌^◌, ℕ, map, length, take, slice_index_or, Decides, IfErr, OnOk};
ghost use Rattle.graph_model.specs.Heaps.{no_shape};
ghost use Rattle.image_meaning.specs.Entries.{is_array_name};
ghost use Rattle.directories.specs.ClassSets.{field_of, behind_brackets, innermost_class, HasInnermost, Agrees, IsFirstOther};

use crate::classes::Classes;
use crate::directory::Directory;
use graph_model::{Field, Shape};

impl Directory {
    /// Whether each shape of the directory agrees with the class set: `Err` with the first that differs.
    pub fn agree<S: Classes>(&self, set: &S) -> Result<(), u32>
        ensures agree { OnOk result ((n : ℕ) → n < length self.now.shapes
            → Agrees (S.facts set.now) (slice_index_or self.now.shapes n no_shape)) }
        ensures differs { IfErr result (λ n. IsFirstOther (S.facts set.now) self.now.shapes n) }
    {
        for (n, shape) in self.shapes().iter().enumerate() {
            if !agrees(set, shape) {
                return Err(n as u32);
            }
        }
        Ok(())
    }
}

/// Whether the shape agrees with the class set.
fn agrees<S: Classes>(set: &S, shape: &Shape) -> bool
    ensures { Decides result (Agrees (S.facts set.now) shape.now) }
{
    let name = shape.name.as_slice();
    if is_array_name(name) {
        return has_innermost(set, name);
    }
    match set.class_shape(name) {
        Some(class) => same_fields(class.fields.as_slice(), shape.fields.as_slice()),
        None => false,
    }
}

fn is_array_name(name: &[u8]) -> bool
    ensures { result ≡ is_array_name name.now }
{
    name.len() > 0 && name[0] == b'['
}

/// Whether the set has the innermost class of an array type, if that has one.
fn has_innermost<S: Classes>(set: &S, name: &[u8]) -> bool
    ensures { Decides result (HasInnermost (S.facts set.now) (innermost_class name.now)) }
{
    let rest = behind_brackets(name);
    if rest.len() == 0 || rest[0] != b'L' {
        return true;
    }
    set.class_shape(without_last(&rest[1..])).is_some()
}

/// What stands behind the `[` of a descriptor.
fn behind_brackets(name: &[u8]) -> &[u8]
    ensures { result.now ≡ behind_brackets name.now }
{
    let mut rest = name;
    while rest.len() > 0 && rest[0] == b'[' {
        rest = &rest[1..];
    }
    rest
}

fn without_last(bytes: &[u8]) -> &[u8]
    ensures { result.now ≡ take (length bytes.now - 1) bytes.now }
{
    if bytes.len() == 0 {
        return bytes;
    }
    &bytes[..bytes.len() - 1]
}

/// Whether the fields have the same names and kinds, one by one.
fn same_fields(fields: &[Field], others: &[Field]) -> bool
    ensures { Decides result (map field_of fields.now ≡ map field_of others.now) }
{
    if fields.len() != others.len() {
        return false;
    }
    for i in 0..fields.len() {
        if !is_same_field(&fields[i], &others[i]) {
            return false;
        }
    }
    true
}

fn is_same_field(field: &Field, other: &Field) -> bool
    ensures { Decides result (field_of field.now ≡ field_of other.now) }
{
    field.name.as_slice() == other.name.as_slice() && field.kind == other.kind
}
