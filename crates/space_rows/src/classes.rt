//! The class set of all worlds.

ghost use Rattle.std.specs.Prelude.{◌≡◌, ◌≢◌, true, List, IfSome, IsSome, length, slice_get};
ghost use Rattle.std.specs.Option.{option_copied};
ghost use Rattle.class_file.specs.declared.class.ClassFile.{ClassFile as File};
ghost use Rattle.class_set.specs.Facts.{class_facts, facts_of};
ghost use Rattle.plain_model.specs.Classes.{is_made};
ghost use Rattle.plain_model.specs.Duties.{IsClass, IsInstanceField, IsStaticField};
ghost use Rattle.plain_model.specs.Facts.{class_at, classes_of, element_of, string_number};

use ap_base::Kind;
use class_file::ClassFile;
use class_links::is_interface;
use class_set::{ClassSet, found_fields_are_where_they_say, link};
use listing::assemble;
use plain_model::Throws;
use run_types::{FieldAt, Known};
use set_types::SetTypes;
use shared_objects::Types;
use std::alloc::Global;
use std::test::Fail;

/// A class set that tells the types of its classes.
#[derive(Drop)]
pub struct Classes {
    pub set: ClassSet,
}

impl Types for Classes {
    ghost use Rattle.class_set.specs.Facts.{facts_of};

    ghost facts = { λ s. facts_of s.set };

    fn known(&self) -> Known {
        SetTypes::of(&self.set).known()
    }

    fn thrown(&self, which: Throws) -> u32 {
        SetTypes::of(&self.set).thrown(which)
    }

    fn element(&self, class: u32) -> Option<Kind> {
        SetTypes::of(&self.set).element(class)
    }

    fn fields(&self, class: u32) -> u32 {
        SetTypes::of(&self.set).fields(class)
    }

    fn is_sub(&self, class: u32, target: u32) -> bool {
        SetTypes::of(&self.set).is_sub(class, target)
    }

    fn may_hold(&self, array: u32, class: u32) -> bool {
        SetTypes::of(&self.set).may_hold(array, class)
    }
}

/// A field of class 0, by its name and descriptor.
pub type Name = (&'static [u8], &'static [u8]);

/// How many classes there are, array types among them.
fn count(set: &ClassSet) -> usize
    ensures { result ≡ length (classes_of (facts_of set.now)) }
{
    set.shapes().len()
}

/// An instance field of class 0 or one above it.
pub fn instance_field(set: &ClassSet, name: Name) -> Option<FieldAt>
    ensures { IfSome result (IsInstanceField (facts_of set.now)) }
{
    found_fields_are_where_they_say();
    let field = set.find_field(0, name.0, name.1)?;
    if field.is_static || set.is_interface(field.class) || count(set) <= field.class as usize {
        return None;
    }
    Some(field)
}

/// A static field of class 0 or one above it.
pub fn static_field(set: &ClassSet, name: Name) -> Option<FieldAt>
    ensures { IfSome result (IsStaticField (facts_of set.now)) }
{
    found_fields_are_where_they_say();
    let field = set.find_field(0, name.0, name.1)?;
    if !field.is_static || field.at == 0 || count(set) <= field.class as usize {
        return None;
    }
    Some(field)
}

/// An array type that has a number and isn't String.
pub fn array_type(set: &ClassSet, descriptor: &[u8]) -> Option<u32>
    ensures class { IfSome result (IsClass (facts_of set.now)) }
    ensures element { IfSome result (λ n. IsSome (element_of (facts_of set.now) n)) }
    ensures other { IfSome result (λ n. n ≢ string_number (facts_of set.now)) }
{
    let number = set.class_named(descriptor)?;
    if count(set) <= number as usize || number == set.known().string {
        return None;
    }
    set.shape(number)?.element?;
    Some(number)
}

// Whether `new` makes objects of a class file's class (JVMS 6.5, new).
fn is_made_file(file: &ClassFile) -> bool
    ensures { (files : List File) → result ≡ is_made (class_facts files file.now) }
{
    !(is_interface(file) || file.access & 0x0400 != 0)
}

fn first_file(set: &ClassSet) -> Option<&ClassFile>
    ensures { option_copied result ≡ slice_get set.now.files 0 }
{
    set.files().get(0)
}

/// The first class of the program, if `new` makes objects of it.
pub fn first_class(set: &ClassSet) -> Option<u32>
    ensures class { IfSome result (IsClass (facts_of set.now)) }
    ensures made { IfSome result (λ n. is_made (class_at (facts_of set.now) n) ≡ true) }
{
    let Some(file) = first_file(set) else {
        return None;
    };
    if !is_made_file(file) || count(set) == 0 {
        return None;
    }
    Some(0)
}

/// Class 0 has two numbers, a reference, four ints and a reference, so that an object of it takes two lines.
const NODE: &[u8] = b".class N
.super java/lang/Object
.field v I
.field w J
.field next LN;
.field a I
.field b I
.field c I
.field d I
.field last LN;
.field r LN; static root
.field s I static
.method m ()V 2 1
iconst_1
newarray int
pop
iconst_1
anewarray N
pop
return
.end
";

pub fn linked(alloc: Global) -> Result<Classes, Fail> {
    let files = assemble(alloc, NODE)?;
    if files.len() > 4096 {
        return Err("one class".into());
    }
    match link(alloc, files) {
        Ok(set) => Ok(Classes { set }),
        Err(_) => Err("a class that links".into()),
    }
}
