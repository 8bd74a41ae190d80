//! The methods that classes declare, by the numbers of their signatures.

ghost use Rattle.std.specs.Prelude.{◌≡◌, ◌+◌, ◌<◌, ◌^◌, map, length, slice_index_or, IfOk};
ghost use Rattle.class_set.specs.Linked.{class_count};
ghost use Rattle.class_set.specs.Members.{method_facts, own_methods, text_at};
ghost use Rattle.built_in_table.specs.Rows.{member_facts};
ghost use Rattle.class_code.specs.Firsts.{AreFirsts};
ghost use Rattle.class_code.specs.Methods.{method_count, method_number};
ghost use Rattle.class_code.specs.Signatures.{signature_texts};
ghost use Rattle.class_code.specs.Declarations.{all_declared, declared_at, declared_by, declared_from, target_at};

use crate::resolving::called_method;
use crate::signatures::place_in;
use ap_base::ListOf;
use built_in_table::{Member, built_in_classes};
use class_file::ClassFile;
use class_set::ClassSet;
use const_pool::Pool;
use frames::Target;
use run_types::MethodAt;
use std::alloc::{AllocError, Global};
use std::marker::Model;
use text_table::Texts;

/// A method that a class declares: the number of its signature, where it has one, and what a call
/// comes to that finds it.
#[derive(Clone, Copy)]
pub(crate) struct Declared {
    pub signature: Option<u32>,
    pub target: Target,
}

/// A class set whose methods and signatures have numbers.
#[derive(Drop)]
pub(crate) struct Numbered<'a> {
    set: &'a ClassSet,
    /// The number of each class's first method.
    firsts: &'a [u32],
    /// The signatures by number, as texts.
    signatures: &'a Texts,
}

impl<'a> Model for Numbered<'a> {
    ghost use Rattle.std.specs.Prelude.{◌≡◌};
    ghost use Rattle.class_set.specs.Linked.{Linked};
    ghost use Rattle.class_code.specs.Firsts.{AreFirsts};
    ghost use Rattle.class_code.specs.Signatures.{signature_texts};

    ghost Value = { Linked };

    ghost view = { λ n. n.set.now };

    ghost invariant = { λ n. AreFirsts n.set.now n.firsts.now
        × (n.signatures.now ≡ signature_texts n.set.now.files) };
}

/// The text at an index, empty where none is there.
fn text_at(pool: &Pool, index: u16) -> &[u8]
    ensures { result.now ≡ text_at pool.now index }
{
    match pool.utf8(index) {
        Some(text) => text.as_slice(),
        None => &[],
    }
}

fn first_of(firsts: &[u32], class: u32) -> u32
    ensures { result ≡ slice_index_or firsts.now class 0 }
{
    match firsts.get(class as usize) {
        Some(first) => *first,
        None => 0,
    }
}

impl<'a> Numbered<'a> {
    /// A class set, the numbers of its classes' first methods, and its signatures.
    pub fn new(set: &'a ClassSet, firsts: &'a [u32], signatures: &'a Texts) -> Numbered<'a>
        requires firsts { AreFirsts set.now firsts.now }
        requires signatures { signatures.now ≡ signature_texts set.now.files }
        ensures { result ≡ set.now }
    {
        Numbered {
            set,
            firsts,
            signatures,
        }
    }

    /// The class set.
    pub fn set(&self) -> &'a ClassSet
        ensures { result.now ≡ self.now }
    {
        self.set
    }

    /// How many signatures have a number.
    pub fn signature_count(&self) -> u32
        ensures { result ≡ length (signature_texts self.now.files) }
    {
        self.signatures.len()
    }

    /// The number of a method of the set.
    pub fn method_number(&self, method: MethodAt) -> u32
        requires { method.method < method_count self.now method.class }
        ensures { result ≡ method_number self.now method }
    {
        first_of(self.firsts, method.class) + method.method
    }

    /// The method that a class declares at a place.
    fn method_at(&self, class: u32, place: usize, is_static: bool) -> MethodAt
        requires { place < method_count self.now class }
        ensures { result ≡ record { class = class; method = place; is_static = is_static } }
    {
        let _ = &self.firsts;
        MethodAt {
            class,
            method: place as u32,
            is_static,
        }
    }

    /// What a call comes to that finds this method.
    fn target_at(&self, method: MethodAt) -> Target
        requires { method.method < method_count self.now method.class }
        ensures { result ≡ target_at self.now method }
    {
        match called_method(self.set, false, method) {
            Ok(method) => Target::Method(self.method_number(method)),
            Err(kind) => Target::Fails(kind),
        }
    }

    /// A method of this name and descriptor that a class declares at a place.
    fn declared_at(
        &self,
        alloc: Global,
        method: MethodAt,
        name: &[u8],
        descriptor: &[u8],
    ) -> Result<Declared, AllocError>
        requires { method.method < method_count self.now method.class }
        ensures { IfOk result (λ declared. declared ≡ declared_at self.now method.class method.method
            (record { name = name.now; descriptor = descriptor.now; is_static = method.is_static })) }
    {
        Ok(Declared {
            signature: place_in(alloc, self.signatures, name, descriptor)?,
            target: self.target_at(method),
        })
    }

    /// The methods that the class of a file declares.
    fn declared_in_file(
        &self,
        alloc: Global,
        class: u32,
        file: &ClassFile,
    ) -> Result<ListOf<Declared>, AllocError>
        requires own { own_methods self.now class
            ≡ map (method_facts file.now.pool) file.now.methods }
        ensures { IfOk result (λ declared. declared ≡ declared_by self.now class) }
    {
        let mut declared = Vec::new(alloc);
        for (place, method) in file.methods.as_slice().iter().enumerate() {
            let at = self.method_at(class, place, method.access & 0x0008 != 0);
            let name = text_at(&file.pool, method.name);
            let descriptor = text_at(&file.pool, method.descriptor);
            declared.push(self.declared_at(alloc, at, name, descriptor)?)?;
        }
        Ok(ListOf::from_vec(declared))
    }

    /// The methods that a built-in class declares.
    fn declared_built_in(
        &self,
        alloc: Global,
        class: u32,
        members: &[Member],
    ) -> Result<ListOf<Declared>, AllocError>
        requires own { own_methods self.now class ≡ map member_facts members.now }
        ensures { IfOk result (λ declared. declared ≡ declared_by self.now class) }
    {
        let mut declared = Vec::new(alloc);
        for (place, member) in members.iter().enumerate() {
            let at = self.method_at(class, place, member.is_static);
            declared.push(self.declared_at(alloc, at, member.name, member.descriptor)?)?;
        }
        Ok(ListOf::from_vec(declared))
    }

    /// The methods that a class declares.
    fn declared_by(&self, alloc: Global, class: u32) -> Result<ListOf<Declared>, AllocError>
        ensures { IfOk result (λ declared. declared ≡ declared_by self.now class) }
    {
        let files = self.set.files();
        if (class as usize) < files.len() {
            return self.declared_in_file(alloc, class, &files[class as usize]);
        }
        match built_in_classes().get(class as usize - files.len()) {
            Some(built_in) => self.declared_built_in(alloc, class, built_in.methods),
            None => Ok(ListOf::new(alloc)),
        }
    }

    /// The methods that each class declares, by its number, where so many aren't array types.
    pub fn all_declared(
        &self,
        alloc: Global,
        count: u32,
    ) -> Result<Vec<ListOf<Declared>>, AllocError>
        requires count { count ≡ class_count self.now }
        ensures { IfOk result (λ declared. declared.items ≡ all_declared self.now) }
    {
        let mut declared = Vec::new(alloc);
        for class in 0..count {
            declared.push(self.declared_by(alloc, class)?)?;
        }
        Ok(declared)
    }
}
