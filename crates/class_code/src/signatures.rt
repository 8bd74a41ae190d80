//! The signatures of methods: names with descriptors, each with a number.

ghost use Rattle.std.specs.Prelude.{◌≡◌, ℕ, ◌+◌, ◌<◌, ◌≤◌, ◌^◌, ◌++◌, [], ◌∷◌, List, map, length, IfOk, OnOk};
ghost use Rattle.std.specs.List.{flat_map};
ghost use Rattle.class_file.specs.declared.class.ClassFile.{ClassFile as File};
ghost use Rattle.class_set.specs.Sets.{IsLinked};
ghost use Rattle.text_table.specs.Texts.{place_of, with_text, with_texts};
ghost use Rattle.class_code.specs.Entries.{run_signature, to_string_signature, rows_in, signature_number, signature_of};
ghost use Rattle.class_code.specs.Entries.{signature_rows};
ghost use Rattle.class_code.specs.Named.{name_of};
ghost use Rattle.class_code.specs.Signatures.{marked, signature_texts, text_of};

use crate::names::{Named, method_name};
use class_set::ClassSet;
use const_pool::Pool;
use std::alloc::{AllocError, Global};
use text_table::Texts;

/// The bytes of a name, each behind a 1.
fn marked_name(alloc: Global, name: &[u8]) -> Result<Vec<u8>, AllocError>
    ensures { IfOk result (λ text. text.items ≡ flat_map marked name.now) }
{
    let mut text = Vec::new(alloc);
    for byte in name {
        text.push(1)?;
        text.push(*byte)?;
    }
    Ok(text)
}

/// A name and a descriptor as one text, by which their number is found: no other two have the same.
fn text_of(alloc: Global, name: &[u8], descriptor: &[u8]) -> Result<Vec<u8>, AllocError>
    ensures { IfOk result (λ text. text.items
        ≡ text_of (record { name = name.now; descriptor = descriptor.now })) }
{
    let mut text = marked_name(alloc, name)?;
    text.push(0)?;
    text.extend_from_slice(descriptor)?;
    Ok(text)
}

/// Numbers a signature, where it has no number yet.
fn add_signature(
    alloc: Global,
    signatures: &mut Texts,
    name: &[u8],
    descriptor: &[u8],
) -> Result<(), AllocError>
    requires room { length signatures.old + 1 < 2 ^ 32 }
    ensures { OnOk result (signatures.new ≡ with_text signatures.old
        (text_of (record { name = name.now; descriptor = descriptor.now }))) }
{
    let text = text_of(alloc, name, descriptor)?;
    signatures.add(alloc, text.as_slice())?;
    Ok(())
}

/// Numbers the signature of the method that an entry names, where it names one.
fn add_entry(
    alloc: Global,
    signatures: &mut Texts,
    pool: &Pool,
    index: u16,
) -> Result<(), AllocError>
    requires room { length signatures.old + 1 < 2 ^ 32 }
    ensures { OnOk result ((class : ℕ) → signatures.new
        ≡ with_texts signatures.old (map text_of (signature_rows class pool.now index))) }
{
    match method_name(pool, index) {
        Some(named) => add_signature(
            alloc,
            signatures,
            named.name.as_slice(),
            named.descriptor.as_slice(),
        ),
        None => Ok(()),
    }
}

/// Numbers the signatures that the entries of a pool name.
fn add_entries(alloc: Global, signatures: &mut Texts, pool: &Pool) -> Result<(), AllocError>
    requires room { length signatures.old + 2 ^ 16 < 2 ^ 32 }
    ensures { OnOk result ((class : ℕ) → signatures.new
        ≡ with_texts signatures.old
        (map text_of (rows_in signature_rows class pool.now (length pool.now)))) }
{
    for index in 0..pool.len() {
        add_entry(alloc, signatures, pool, index)?;
    }
    Ok(())
}

/// The signatures of a program by number, as texts: `run` and `toString`, which native methods
/// call, and those that entries name.
pub(crate) fn signatures_of(alloc: Global, set: &ClassSet) -> Result<Texts, AllocError>
    requires few { length set.now.files ≤ 4096 }
    requires linked { IsLinked set.now }
    ensures { IfOk result (λ signatures. signatures ≡ signature_texts set.now.files) }
{
    let mut signatures = Texts::new(alloc);
    add_signature(alloc, &mut signatures, b"run", b"()V")?;
    add_signature(alloc, &mut signatures, b"toString", b"()Ljava/lang/String;")?;
    for file in set.files() {
        add_entries(alloc, &mut signatures, &file.pool)?;
    }
    Ok(signatures)
}

/// The number of a signature, `None` exactly where it has none.
pub(crate) fn place_in(
    alloc: Global,
    signatures: &Texts,
    name: &[u8],
    descriptor: &[u8],
) -> Result<Option<u32>, AllocError>
    ensures { IfOk result (λ place. place ≡ place_of signatures.now
        (text_of (record { name = name.now; descriptor = descriptor.now }))) }
{
    let text = text_of(alloc, name, descriptor)?;
    Ok(signatures.place(text.as_slice()))
}

/// The number of a signature; how many there are where it has none.
pub(crate) fn signature_number(
    alloc: Global,
    signatures: &Texts,
    name: &[u8],
    descriptor: &[u8],
) -> Result<u32, AllocError>
    ensures { IfOk result (λ number. (files : List File)
        → signatures.now ≡ signature_texts files
        → number ≡ signature_number files (record { name = name.now; descriptor = descriptor.now })) }
{
    match place_in(alloc, signatures, name, descriptor)? {
        Some(number) => Ok(number),
        None => Ok(signatures.len()),
    }
}
