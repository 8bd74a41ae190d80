//! How fields are found (JVMS 5.4.3.2).

ghost use Rattle.std.specs.Prelude.{◌≡◌, ◌<◌, ◌^◌, length, map};
ghost use Rattle.built_in_table.specs.Rows.{member_facts};
ghost use Rattle.class_set.specs.Members.{own_fields};
ghost use Rattle.class_set.specs.Lookups.{find_field, find_member, first_own_slot, own_field, slot_for};
ghost use Rattle.class_set.specs.Tables.{placed_field};

use crate::ClassSet;
use crate::layouts::kind_of;
use crate::members::{Found, count_statics, field_in_file, member_in};
use built_in_table::{BuiltIn, built_in_classes};
use run_types::FieldAt;

/// The field with this name and descriptor that a built-in class declares itself. Its fields are
/// all static, or none is.
fn built_in_field(class: u32, built_in: &BuiltIn, name: &[u8], descriptor: &[u8]) -> Option<FieldAt>
    requires small { length built_in.now.fields.now < 2 ^ 16 }
    ensures { result
        ≡ placed_field class (find_member (map member_facts built_in.now.fields.now) name.now descriptor.now) }
{
    let found = member_in(built_in.fields, name, descriptor)?;
    Some(FieldAt {
        class,
        is_static: found.is_static,
        at: found.place as u32,
        kind: kind_of(descriptor),
    })
}

impl ClassSet {
    /// The first slot of the fields that the class of a file declares.
    fn first_slot(&self, class: u32) -> u32
        requires there { class < length self.now.files }
        ensures slot { result ≡ first_own_slot self.now.files class }
        ensures small { result < 2 ^ 31 }
    {
        let fields = self.files[class as usize].fields.as_slice();
        let own = fields.len() - count_statics(fields);
        (self.shapes[class as usize].fields.len() - own) as u32
    }

    /// The slot of an instance field, or the number of a static one, that the class of a file
    /// declares at a place.
    fn slot_of(&self, class: u32, found: Found) -> u32
        requires there { class < length self.now.files }
        requires within { found.place < length (own_fields self.now.files class) }
        ensures { result ≡ slot_for self.now.files class found.place found.is_static }
    {
        let fields = self.files[class as usize].fields.as_slice();
        let statics = count_statics(&fields[..found.place]);
        if found.is_static {
            return self.firsts[class as usize] + statics as u32;
        }
        self.first_slot(class) + (found.place - statics) as u32
    }

    /// The field with this name and descriptor that the class of a file declares itself.
    fn file_field(&self, class: u32, name: &[u8], descriptor: &[u8]) -> Option<FieldAt>
        requires there { class < length self.now.files }
        ensures { result ≡ own_field self.now.files name.now descriptor.now class }
    {
        let found = field_in_file(&self.files[class as usize], name, descriptor)?;
        Some(FieldAt {
            class,
            is_static: found.is_static,
            at: self.slot_of(class, found),
            kind: kind_of(descriptor),
        })
    }

    /// The field with this name and descriptor that a class declares itself.
    fn own_field(&self, class: u32, name: &[u8], descriptor: &[u8]) -> Option<FieldAt>
        ensures { result ≡ own_field self.now.files name.now descriptor.now class }
    {
        if (class as usize) < self.files.len() {
            return self.file_field(class, name, descriptor);
        }
        match built_in_classes().get(class as usize - self.files.len()) {
            Some(built_in) => built_in_field(class, built_in, name, descriptor),
            None => None,
        }
    }

    /// The field with this name and descriptor that is found first: in the class, in its
    /// superinterfaces in order and those above them, and then in the superclass likewise (JVMS
    /// 5.4.3.2). `None` exactly where none is found. Takes time for each class above and each field
    /// that they declare, once.
    pub fn find_field(&self, class: u32, name: &[u8], descriptor: &[u8]) -> Option<FieldAt>
        ensures { result ≡ find_field self.now class name.now descriptor.now }
    {
        for above in self.orders.get(class as usize)?.as_slice() {
            let found = self.own_field(*above, name, descriptor);
            if found.is_some() {
                return found;
            }
        }
        None
    }
}
