//! Class sets.

ghost use Rattle.std.specs.Prelude.{◌≡◌, ◌≤◌, ◌<◌, ◌^◌, ◌++◌, length, map, slice_get, true, All, IfOk, IfSome, OnErr, OnOk};
ghost use Rattle.std.specs.Option.{option_copied};
ghost use Rattle.class_file.specs.Classes.{CanBeRead};
ghost use Rattle.class_links.specs.Links.{Links};
ghost use Rattle.plain_model.specs.Facts.{array_named, class_at, known_classes, shapes_of};
ghost use Rattle.class_set.specs.Facts.{facts_of, root_of, roots_of};

use crate::arrays::{Listed, listed_arrays};
use crate::hierarchy::hierarchy;
use crate::literals::{literal_indices, literal_texts, string_at};
use crate::members::{Found, member_in, method_in_file};
use crate::names::class_names;
use crate::statics::{Static, file_statics, name_in};
use crate::supers::super_numbers;
use crate::types::{ArrayType, push_array, types};
use ap_base::{Bytes, ListOf, Ref};
use built_in_table::built_in_classes;
use class_file::ClassFile;
use const_pool::Pool;
use graph_model::{Root, Shape};
use graph_walks::Reached;
use run_types::{Known, MethodAt};
use std::alloc::{AllocError, Global};
use std::marker::Model;
use text_table::{SortedTexts, Texts};

// The places of some of the built-in classes.
const OBJECT: u32 = 18;

const RUNNABLE: u32 = 19;

const STRING: u32 = 21;

const STRING_BUILDER: u32 = 22;

const THREAD: u32 = 25;

const THROWABLE: u32 = 26;

/// Class files that were linked, with their array types. Classes are found by their names within
/// logarithmic time, shapes and subtypes at once.
///
/// The tables take memory for each class and its names, for each field of each shape, those of its
/// superclasses among them, a byte for each pair of classes, and eight bytes for each pair of a
/// class and one above it.
#[derive(Drop)]
pub struct ClassSet {
    pub(crate) files: Vec<ClassFile>,
    /// Names by number: those of classes, and the descriptors of array types.
    pub(crate) names: Texts,
    supers: Vec<Option<u32>>,
    pub(crate) literals: Texts,
    indices: Vec<Option<u32>>,
    /// Shapes by number.
    pub(crate) shapes: Vec<Shape>,
    pub(crate) arrays: Vec<ArrayType>,
    /// The array types that code makes.
    made: SortedTexts,
    /// The order in which a class and those above it are looked through for a field, by the class's
    /// number.
    pub(crate) orders: Vec<ListOf<u32>>,
    /// The classes of which a class is a subtype, by its number.
    pub(crate) above: Vec<Reached>,
    statics: Vec<Static>,
    /// The number of the first static field of each file's class.
    pub(crate) firsts: Vec<u32>,
}

impl Model for ClassSet {
    ghost use Rattle.class_set.specs.Linked.{Linked};
    ghost use Rattle.class_set.specs.Tables.{AreClasses, AreTables, AreTypes, linked_of};
    ghost use Rattle.class_set.specs.Sets.{IsLinked};

    ghost Value = { Linked };

    ghost view = { λ s. linked_of s.files.items s.names };

    ghost invariant = { λ s. AreTables s.files.items s.names s.supers.items s.literals s.indices.items
        × AreTypes s.files.items s.names s.shapes.items s.arrays.items s.made
        × AreClasses s.files.items s.orders.items s.above.items s.statics.items s.firsts.items
        × IsLinked (linked_of s.files.items s.names) };
}

impl ClassSet {
    ghost use Rattle.class_set.specs.Linked.{class_count, class_named, with_array};
    ghost use Rattle.class_set.specs.ArrayTypes.{begins_with_bracket, is_array_type, linked_from, makes};
    ghost use Rattle.class_set.specs.Members.{own_methods};
    ghost use Rattle.class_set.specs.Literals.{literal, literal_place, reference_to, texts_of};
    ghost use Rattle.class_set.specs.Lookups.{find_member, find_method, own_method};
    ghost use Rattle.class_set.specs.Tables.{IsSmall, found_of, static_name, static_now};

    /// The set of files that link.
    pub(crate) fn of(alloc: Global, files: Vec<ClassFile>) -> Result<ClassSet, AllocError>
        requires few { length files.items ≤ 4096 }
        requires small { All IsSmall files.items }
        requires readable { All CanBeRead files.items }
        requires links { Links files.items }
        ensures { IfOk result (λ set. set ≡ linked_from files.items) }
    {
        let mut names = class_names(alloc, files.as_slice())?;
        let supers = super_numbers(alloc, files.as_slice(), &names)?;
        let (orders, above) = hierarchy(alloc, files.as_slice(), &names, supers.as_slice())?;
        let needed = listed_arrays(alloc, Listed::Needed, files.as_slice())?;
        names.add_all(alloc, &needed)?;
        let made = listed_arrays(alloc, Listed::Made, files.as_slice())?;
        let (shapes, arrays) = types(alloc, files.as_slice(), &names, supers.as_slice())?;
        let literals = literal_texts(alloc, files.as_slice())?;
        let indices = literal_indices(alloc, &literals)?;
        let (statics, firsts) = file_statics(alloc, files.as_slice(), &literals)?;
        Ok(ClassSet {
            files,
            names,
            supers,
            literals,
            indices,
            shapes,
            arrays,
            made,
            orders,
            above,
            statics,
            firsts,
        })
    }

    /// The number of the class or the array type of this name, `None` exactly where there is none.
    /// An array type's name is its descriptor (JVMS 4.4.1).
    pub fn class_named(&self, name: &[u8]) -> Option<u32>
        ensures { result ≡ class_named self.now name.now }
    {
        self.names.place(name)
    }

    /// Gives an array type that has no number yet the next one. Want of numbers is want of memory. An
    /// `Err` leaves the set as it was.
    pub fn number_array(&mut self, alloc: Global, descriptor: &[u8]) -> Result<(), AllocError>
        requires array { is_array_type descriptor.now ≡ true }
        ensures numbered { OnOk result (self.new ≡ with_array self.old descriptor.now) }
        ensures same { OnErr result (self.new ≡ self.old) }
    {
        if self.names.place(descriptor).is_some() {
            return Ok(());
        }
        let classes = self.supers.len() as u32;
        push_array(
            alloc,
            &mut self.names,
            &mut self.arrays,
            &mut self.shapes,
            classes,
            descriptor,
        )
    }

    /// The files in the order in which they were read. A class's number is its file's place here.
    pub fn files(&self) -> &[ClassFile]
        ensures { result.now ≡ self.now.files }
    {
        self.files.as_slice()
    }

    /// The number of the superclass of a class or an array type, `None` exactly where it has none.
    pub fn superclass(&self, class: u32) -> Option<u32>
        ensures { result ≡ (class_at (facts_of self.now) class).superclass }
    {
        if (class as usize) < self.supers.len() {
            return self.supers[class as usize];
        }
        if class < self.names.len() {
            return Some(self.files.len() as u32 + OBJECT);
        }
        None
    }

    /// How many classes there are that aren't array types.
    pub fn named_count(&self) -> usize
        ensures { result ≡ class_count self.now }
    {
        self.supers.len()
    }

    /// The shape of the objects of a class or an array type, by its number: `None` exactly past the
    /// last. Its fields are those of its superclasses, the uppermost first, and then its own, as
    /// they are declared.
    pub fn shape(&self, n: u32) -> Option<&Shape>
        ensures { option_copied result ≡ slice_get (shapes_of (facts_of self.now)) n }
    {
        self.shapes.get(n as usize)
    }

    /// Whether the code makes arrays of the type with this number; those of chars and of Strings
    /// count as made.
    pub fn makes(&self, n: u32) -> bool
        ensures { result ≡ makes self.now n }
    {
        match self.names.get(n) {
            Some(name) => self.made.has(name.as_slice()),
            None => false,
        }
    }

    /// The classes that the runtime itself makes or tests.
    pub fn known(&self) -> Known
        ensures { result ≡ known_classes (facts_of self.now) }
    {
        let first = self.files.len() as u32;
        Known {
            chars: self.array_named(b"[C"),
            string: first + STRING,
            object: first + OBJECT,
            runnable: first + RUNNABLE,
            builder: first + STRING_BUILDER,
            thread: first + THREAD,
            throwable: first + THROWABLE,
        }
    }

    /// The number of the array type with this descriptor; one past all where there is none.
    pub fn array_named(&self, descriptor: &[u8]) -> u32
        requires array { begins_with_bracket descriptor.now ≡ true }
        ensures { result ≡ array_named (facts_of self.now) descriptor.now }
    {
        match self.names.place(descriptor) {
            Some(number) => number,
            None => self.names.len(),
        }
    }

    /// The static fields of the program's classes, in the order of their numbers from 1 on. Number
    /// 0 is `java/lang/System.out`.
    pub fn statics(&self) -> &[Static]
        ensures { map (static_now self.now.files) result.now ≡ (facts_of self.now).statics }
    {
        self.statics.as_slice()
    }

    /// The name of a static field: that of its class, and its own, joined by a dot.
    pub fn static_name(&self, alloc: Global, field: &Static) -> Result<Bytes, AllocError>
        ensures { IfOk result (λ name. name ≡ static_name self.now.files field.now) }
    {
        match self.files.get(field.class as usize) {
            Some(file) => name_in(alloc, file, field.place),
            None => Ok(Bytes::from_vec(Vec::new(alloc))),
        }
    }

    /// The durable roots, by their names, in the order of their numbers.
    pub fn roots(&self, alloc: Global) -> Result<ListOf<Root>, AllocError>
        ensures { IfOk result (λ roots. roots ≡ roots_of (facts_of self.now)) }
    {
        let mut roots = ListOf::new(alloc);
        for (place, field) in self.statics.as_slice().iter().enumerate() {
            self.add_root(alloc, &mut roots, field, place as u32 + 1)?;
        }
        Ok(roots)
    }

    /// Adds the static field of this number, where it is a durable root.
    fn add_root(
        &self,
        alloc: Global,
        roots: &mut ListOf<Root>,
        field: &Static,
        number: u32,
    ) -> Result<(), AllocError>
        ensures { OnOk result (roots.new
            ≡ roots.old ++ root_of number (static_now self.now.files field.now)) }
    {
        if field.is_root {
            roots.push(Root {
                name: self.static_name(alloc, field)?,
                at: number,
            })?;
        }
        Ok(())
    }

    /// The first method with this name and descriptor that a class declares itself.
    fn declared_method(&self, class: u32, name: &[u8], descriptor: &[u8]) -> Option<Found>
        ensures found { result
            ≡ found_of (find_member (own_methods self.now class) name.now descriptor.now) }
        ensures small { IfSome result (λ found. found.place < 2 ^ 16) }
    {
        let class = class as usize;
        if class < self.files.len() {
            return method_in_file(&self.files[class], name, descriptor);
        }
        match built_in_classes().get(class - self.files.len()) {
            Some(built_in) => member_in(built_in.methods, name, descriptor),
            None => None,
        }
    }

    /// The first method with this name and descriptor that a class declares itself, `None` exactly
    /// where it declares none. Takes time for each method that it declares.
    pub fn own_method(&self, class: u32, name: &[u8], descriptor: &[u8]) -> Option<MethodAt>
        ensures { result ≡ own_method self.now name.now descriptor.now class }
    {
        let found = self.declared_method(class, name, descriptor)?;
        Some(MethodAt {
            class,
            method: found.place as u32,
            is_static: found.is_static,
        })
    }

    /// The method with this name and descriptor that the class or the nearest of its superclasses
    /// declares, `None` exactly where none does (JVMS 5.4.3.3, without superinterfaces). Takes time
    /// for each method that they declare.
    pub fn find_method(&self, class: u32, name: &[u8], descriptor: &[u8]) -> Option<MethodAt>
        ensures { result ≡ find_method self.now class name.now descriptor.now }
    {
        let mut at = class;
        for _ in 0..self.named_count() {
            let found = self.own_method(at, name, descriptor);
            if found.is_some() {
                return found;
            }
            at = self.superclass(at)?;
        }
        self.own_method(at, name, descriptor)
    }

    /// The place among the set's literals of the String at an index of a file's pool, `None`
    /// exactly where none is there.
    pub fn literal_place(&self, pool: &Pool, index: u16) -> Option<u32>
        ensures { result ≡ literal_place self.now.files pool.now index }
    {
        let text = pool.string(index)?;
        self.literals.place(text.as_slice())
    }

    /// The reference with which the literal at an index of a file's pool begins.
    fn literal_in(&self, file: &ClassFile, index: u32) -> Option<Ref>
        ensures { result
            ≡ reference_to (texts_of self.now.files) (literal_place self.now.files file.now.pool index) }
    {
        let text = string_at(&file.pool, index)?;
        let place = self.literals.place(text.as_slice())?;
        match self.indices[place as usize] {
            Some(index) => Some(Ref::Volatile(index)),
            None => None,
        }
    }

    /// The reference with which a string literal begins, by the number of its class and the index
    /// of its entry: `None` exactly where the class has no String there, or where no reference has
    /// the index of the literal's first word.
    pub fn literal(&self, class: u32, index: u32) -> Option<Ref>
        ensures { result ≡ literal self.now class index }
    {
        match self.files.get(class as usize) {
            Some(file) => self.literal_in(file, index),
            None => None,
        }
    }
}
