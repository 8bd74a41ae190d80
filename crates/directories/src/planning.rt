// What a directory lacks is planned.
ghost use Rattle.std.specs.Prelude.{◌≡◌, ◌≤◌, ◌-◌, ◌+◌, ◌^◌, ◌++◌, List, [], ◌∷◌, None, map, min, length, IfOk, IfErr, OnOk};
ghost use Rattle.std.specs.Prelude.{OnErr};
ghost use Rattle.image_layout.specs.Places.{directory_words};
ghost use Rattle.image_meaning.specs.Directories.{no_entries, spelled_all, with_entry, with_all};
ghost use Rattle.directories.specs.Read.{entry_of, the_directory};
ghost use Rattle.directories.specs.Planning.{has_entry, lacking, directory_of_kept, root_count, no_room, IsRefused};
ghost use Rattle.directories.specs.Names.{AreNamesOf};
ghost use Rattle.directories.specs.declared.planning.PlanFault.TheVariants.{OutOfMemory as NoMemory};

use crate::directory::Directory;
use crate::entries::Entry;
use crate::names::Names;
use crate::spelling::{entry_length, push_entry};
use ap_base::Bytes;
use graph_model::Shape;
use image_layout::{DIRECTORY_WORDS, ROOT_SLOTS};
use run_types::{Full, Which};
use std::alloc::{AllocError, Global};
use thiserror::Error;

/// Why nothing was planned.
#[derive(Clone, Copy, Debug, PartialEq, Eq, Error)]
pub enum PlanFault {
    /// The missing entries need more words of the directory than are left, or there are more missing roots than root slots
    /// are left.
    #[error("the directory has no room for the missing entries")]
    Full(Full),
    #[error("no memory is left")]
    OutOfMemory,
}

impl From<AllocError> for PlanFault {
    ghost from_gives = { λ _ e. e ≡ NoMemory };

    fn from(_: AllocError) -> Self {
        PlanFault::OutOfMemory
    }
}

impl Directory {
    ghost use Rattle.image_meaning.specs.Entries.{DirectoryEntry};
    ghost use Rattle.directories.specs.Kept.{Continues};
    ghost use Rattle.directories.specs.Planning.{IsPlanned, CanBePlanned};

    /// Plans those of these entries that the directory lacks, in their order, behind what is left of earlier plans. `Full`
    /// exactly where there is too little room for them. After an `Err` all is as before.
    ///
    /// A directory can have each of the entries, and no two are of one kind and name: what is planned may stand behind what
    /// the image has.
    pub fn plan_entries(&mut self, alloc: Global, entries: &[Entry]) -> Result<(), PlanFault>
        requires can { CanBePlanned (map entry_of entries.now) }
        ensures planned { OnOk result
            (IsPlanned (lacking (directory_of_kept self.old) (map entry_of entries.now)) self.old self.new) }
        ensures fits { OnOk result (no_room self.old (lacking (directory_of_kept self.old) (map entry_of entries.now)) ≡ None) }
        ensures continues { (had : List DirectoryEntry) → Continues had self.old → OnOk result (Continues had self.new) }
        ensures full { IfErr result (λ fault. IsRefused fault
            (no_room self.old (lacking (directory_of_kept self.old) (map entry_of entries.now)))) }
        ensures same { OnErr result (self.new ≡ self.old) }
    {
        let mut missing = self.missing(alloc, entries)?;
        match self.no_room(missing.as_slice()) {
            Some(full) => return Err(PlanFault::Full(full)),
            None => {}
        }
        let (shapes, roots) = names_of(alloc, missing.as_slice())?;
        let mut all = self.left_entries(alloc)?;
        all.append(&mut missing)?;
        let words = spell_all(alloc, all.as_slice())?;
        self.add_plan(all, words, shapes, roots)?;
        Ok(())
    }

    /// Copies of the planned entries that are left.
    fn left_entries(&self, alloc: Global) -> Result<Vec<Entry>, AllocError>
        ensures { IfOk result (λ entries. map entry_of entries.items ≡ self.now.left) }
    {
        let mut entries = Vec::new(alloc);
        for i in self.appended..self.planned.len() {
            entries.push(self.planned[i].copy(alloc)?)?;
        }
        Ok(entries)
    }

    /// Copies of those of the entries that the directory lacks.
    fn missing(&self, alloc: Global, entries: &[Entry]) -> Result<Vec<Entry>, AllocError>
        ensures { IfOk result (λ missing. map entry_of missing.items
            ≡ lacking (directory_of_kept self.now) (map entry_of entries.now)) }
    {
        let names = Names::of(alloc, self.shapes.as_slice(), self.roots.as_slice())?;
        let mut missing = Vec::new(alloc);
        for entry in entries {
            if !self.has_entry(&names, entry) {
                missing.push(entry.copy(alloc)?)?;
            }
        }
        Ok(missing)
    }

    /// Whether the directory, whose names these are, has an entry of this kind and name.
    fn has_entry(&self, names: &Names, entry: &Entry) -> bool
        requires { AreNamesOf (directory_of_kept self.now) names.now }
        ensures { result ≡ has_entry (directory_of_kept self.now) (entry_of entry.now) }
    {
        names.has(entry)
    }

    /// What there is too little room of for these entries, if there is.
    fn no_room(&self, entries: &[Entry]) -> Option<Full>
        ensures full { result ≡ no_room self.now (map entry_of entries.now) }
        ensures within { self.now.used + length (spelled_all self.now.left) ≤ directory_words }
    {
        let need = words_needed(entries);
        let planned = (self.words.len() - self.at) as u64;
        let left = u64::from(DIRECTORY_WORDS) - (u64::from(self.used) + planned);
        if need > left {
            let which = Which::DirectoryWords;
            return Some(Full { which, need, left });
        }
        let need = roots_needed(entries);
        let left = u64::from(ROOT_SLOTS).saturating_sub(self.roots.len() as u64);
        if need > left {
            let which = Which::Roots;
            return Some(Full { which, need, left });
        }
        None
    }

    /// Takes the entries, of which the first are those that are left, with their words, and the shapes and roots of the others.
    fn add_plan(
        &mut self,
        entries: Vec<Entry>,
        words: Vec<u64>,
        mut shapes: Vec<Shape>,
        mut roots: Vec<Bytes>,
    ) -> Result<(), AllocError>
        requires spelled { words.items ≡ spelled_all (map entry_of entries.items) }
        requires room { self.old.used + length (spelled_all (map entry_of entries.items)) ≤ directory_words }
        requires few { length (spelled_all self.old.left) + length shapes.items ≤ length (spelled_all (map entry_of entries.items)) }
        ensures left { OnOk result (self.new.left ≡ map entry_of entries.items) }
        ensures shapes { OnOk result (self.new.shapes ≡ self.old.shapes ++ shapes.items) }
        ensures roots { OnOk result (self.new.roots ≡ self.old.roots ++ roots.items) }
        ensures used { OnOk result (self.new.used ≡ self.old.used) }
        ensures progress { OnOk result (self.new.progress ≡ self.old.progress) }
        ensures same { OnErr result (self.new ≡ self.old) }
    {
        self.shapes.reserve(shapes.len())?;
        self.roots.append(&mut roots)?;
        self.shapes.append(&mut shapes)?;
        self.planned = entries;
        self.appended = 0;
        self.words = words;
        self.at = 0;
        Ok(())
    }
}

/// How many words spell the entries; or the greatest number.
fn words_needed(entries: &[Entry]) -> u64
    ensures { result ≡ min (length (spelled_all (map entry_of entries.now))) (2 ^ 64 - 1) }
{
    let mut words: u64 = 0;
    for entry in entries {
        words = words.saturating_add(entry_length(entry));
    }
    words
}

/// How many of the entries are roots; or the greatest number.
fn roots_needed(entries: &[Entry]) -> u64
    ensures { result ≡ min (root_count (map entry_of entries.now)) (2 ^ 64 - 1) }
{
    let mut roots: u64 = 0;
    for entry in entries {
        roots = roots.saturating_add(one_if_root(entry));
    }
    roots
}

fn one_if_root(entry: &Entry) -> u64
    ensures { result ≡ root_count (entry_of entry.now ∷ []) }
{
    match entry {
        Entry::Shape(_) => 0,
        Entry::Root(_) => 1,
    }
}

/// The words that spell the entries.
fn spell_all(alloc: Global, entries: &[Entry]) -> Result<Vec<u64>, AllocError>
    requires { length (spelled_all (map entry_of entries.now)) ≤ directory_words }
    ensures { IfOk result (λ words. words.items ≡ spelled_all (map entry_of entries.now)) }
{
    let mut words = Vec::new(alloc);
    for entry in entries {
        push_entry(&mut words, entry)?;
    }
    Ok(words)
}

/// Copies of the shapes and of the roots' names.
fn names_of(alloc: Global, entries: &[Entry]) -> Result<(Vec<Shape>, Vec<Bytes>), AllocError>
    ensures { IfOk result (λ names. the_directory names.0.items names.1.items
        ≡ with_all no_entries (map entry_of entries.now)) }
{
    let mut shapes = Vec::new(alloc);
    let mut roots = Vec::new(alloc);
    for entry in entries {
        push_name(alloc, &mut shapes, &mut roots, entry)?;
    }
    Ok((shapes, roots))
}

/// Adds a copy of the entry's shape, or of its root's name.
fn push_name(
    alloc: Global,
    shapes: &mut Vec<Shape>,
    roots: &mut Vec<Bytes>,
    entry: &Entry,
) -> Result<(), AllocError>
    ensures { OnOk result (the_directory shapes.new.items roots.new.items
        ≡ with_entry (the_directory shapes.old.items roots.old.items) (entry_of entry.now)) }
{
    match entry {
        Entry::Shape(shape) => shapes.push(shape.copy(alloc)?)?,
        Entry::Root(name) => roots.push(Bytes::copy(alloc, name.as_slice())?)?,
    }
    Ok(())
}
