//! Class files by their classes' names.

ghost use Rattle.std.specs.Prelude.{◌≡◌, ℕ, ◌≤◌, ◌↔◌, None, length, Contains, IfOk, IfErr, OnOk};
ghost use Rattle.std.specs.Option.{option_map, option_to_list};
ghost use Rattle.class_links.specs.Names.{known_classes, find_known, file_from, super_files};
ghost use Rattle.class_links.specs.Links.{doubled, super_edges, IsBroken};
ghost use Rattle.class_links.specs.Found.{flags_of};
ghost use Rattle.graph_walks.specs.Paths.{HaveSameEdges};

use crate::LinkRefusal;
use crate::built_in::built_in;
use crate::names::{Flags, class_name, is_final, is_interface, name_of, super_of};
use ap_base::{Bytes, ListOf};
use class_file::ClassFile;
use std::alloc::{AllocError, Global};
use std::collections::BTreeMap;
use std::marker::Model;

/// Class files, with the number of the file of each class by its name.
#[derive(Drop)]
pub(crate) struct Classes<'a> {
    files: &'a [ClassFile],
    numbers: BTreeMap<&'a [u8], u32>,
}

impl<'a> Model for Classes<'a> {
    ghost use Rattle.std.specs.Prelude.{List};
    ghost use Rattle.class_file.specs.declared.class.ClassFile.{ClassFile as File};
    ghost use Rattle.class_links.specs.Found.{AreNumbers};

    ghost Value = { List File };

    ghost view = { λ c. c.files.now };

    ghost invariant = { λ c. AreNumbers c.files.now c.numbers };
}

impl<'a> Classes<'a> {
    /// The class files by their classes' names, of which no two are the same and none is that of a built-in class.
    pub(crate) fn of(alloc: Global, files: &'a [ClassFile]) -> Result<Classes<'a>, LinkRefusal>
        requires few { length files.now ≤ 4096 }
        ensures files { IfOk result (λ classes. classes ≡ files.now) }
        ensures single { OnOk result (doubled files.now ≡ None) }
        ensures broken { IfErr result (IsBroken files.now) }
    {
        let mut numbers = BTreeMap::new(alloc);
        for (number, file) in files.iter().enumerate() {
            let name = name_of(file);
            if built_in(name).is_some() || numbers.insert(name, number as u32)?.is_some() {
                return Err(LinkRefusal::DuplicateClass {
                    class: Bytes::copy(alloc, name)?,
                });
            }
        }
        Ok(Classes { files, numbers })
    }

    /// The class files.
    pub(crate) fn files(&self) -> &'a [ClassFile]
        ensures { result.now ≡ self.now }
    {
        self.files
    }

    /// The number of the file of the class of this name, if there is one.
    fn file_number(&self, name: &[u8]) -> Option<u32>
        ensures { option_to_list result ≡ file_from 0 self.now name.now }
    {
        self.numbers.get(name).copied()
    }

    /// The flags of the class of this name, if there is one.
    pub(crate) fn find(&self, name: &[u8]) -> Option<Flags>
        ensures { result ≡ option_map flags_of (find_known (known_classes self.now) name.now) }
    {
        match self.file_number(name) {
            Some(number) => {
                let file = &self.files[number as usize];
                Some(Flags {
                    is_interface: is_interface(file),
                    is_final: is_final(file),
                })
            }
            None => built_in(name),
        }
    }

    /// The numbers of the files with the superinterfaces of a class, in order, and then with its superclass.
    fn super_files(&self, alloc: Global, file: &ClassFile) -> Result<Vec<u32>, AllocError>
        ensures { IfOk result (λ numbers. numbers.items ≡ super_files self.now file.now) }
    {
        let mut numbers = Vec::new(alloc);
        for index in file.interfaces.as_slice() {
            if let Some(number) = self.file_number(class_name(&file.pool, *index)) {
                numbers.push(number)?;
            }
        }
        if let Some(number) = self.file_number(super_of(file)) {
            numbers.push(number)?;
        }
        Ok(numbers)
    }

    /// For each file the numbers of those with the superinterfaces and the superclass of its class, each once.
    pub(crate) fn super_edges(&self, alloc: Global) -> Result<Vec<ListOf<u32>>, AllocError>
        ensures { IfOk result (λ edges. HaveSameEdges edges.items (super_edges self.now)) }
    {
        let mut edges = Vec::new(alloc);
        for file in self.files {
            edges.push(each_once(self.super_files(alloc, file)?))?;
        }
        Ok(edges)
    }
}

/// The same numbers, each once.
fn each_once(mut numbers: Vec<u32>) -> ListOf<u32>
    ensures { (n : ℕ) → Contains result n ↔ Contains numbers.items n }
{
    numbers.sort_unstable();
    numbers.dedup();
    ListOf::from_vec(numbers)
}
