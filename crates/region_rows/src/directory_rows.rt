// The entries of a class set are planned and appended to the directory of a blank image, and found again, also after a stop.
use crate::images::LINES;
use crate::recovery::attach;
use class_set::{ClassSet, link};
use directories::{Append, Directory};
use graph_model::Value;
use image_recovery::{Recovered, recover};
use line_image::{Fails, MemoryImage};
use listing::assemble;
use set_directory::SetClasses;
use shared_graph::SharedGraph;
use std::alloc::{AllocError, Global};
use std::test::Fail;

/// Two classes, an interface and a durable root; the code makes an `int[]` and an `Object[]`.
const CLASSES: &str = ".class B\n.super java/lang/Object\n.field r LA; static root\n\
    .class A\n.super B\n.field i I\n.method m ()V 1 1\niconst_1\nnewarray int\npop\n\
    iconst_1\nanewarray java/lang/Object\npop\nreturn\n.end\n\
    .interface I\n.super java/lang/Object\n";

/// A set whose class A has a field of another kind.
const OTHERS: &str =
    ".class A\n.super java/lang/Object\n.field i J\n.class B\n.super java/lang/Object\n";

/// The first shapes, in the order of their names' bytes: of the classes, and of the arrays that code makes, those of chars and of
/// Strings always.
static FIRST: [&str; 7] = [
    "A",
    "B",
    "[C",
    "[I",
    "[Ljava/lang/Object;",
    "[Ljava/lang/String;",
    "autopersist/Region",
];

/// Those of `FIRST`, and the 24 of the built-in classes that aren't interfaces, less Region.
const SHAPES: usize = 31;

/// Fails from a call on.
fn fails(alloc: Global, since: u64) -> Fails {
    Fails {
        calls: Vec::new(alloc),
        since,
        room: 1_000,
    }
}

/// A blank image that fails from a call on.
fn blank(alloc: Global, since: u64) -> Result<MemoryImage, AllocError> {
    MemoryImage::new(alloc, LINES, fails(alloc, since))
}

fn linked(alloc: Global, listing: &str) -> Result<ClassSet, Fail> {
    let files = assemble(alloc, listing.as_bytes())?;
    if files.len() > 4096 {
        return Err("few classes".into());
    }
    Ok(link(alloc, files).ok().ok_or("classes that link")?)
}

/// Makes the calls that the planned entries need: whether all were made.
fn append(found: &mut Recovered<MemoryImage>) -> bool {
    for _call in 0..400 {
        if found.memory.lines() < LINES {
            return false;
        }
        match found.directory.append_next(&mut found.memory) {
            Ok(Append::Done) => return true,
            Ok(Append::More) => {}
            Err(_) => return false,
        }
    }
    false
}

/// Recovers an image.
fn recovered(alloc: Global, image: MemoryImage) -> Result<Recovered<MemoryImage>, Fail> {
    Ok(
        recover(alloc, attach(alloc, image)?)
            .ok()
            .ok_or("it is well formed")?,
    )
}

/// Recovers an image, plans what its directory lacks of a set's entries, and appends it: what that leaves, and whether all calls
/// were made.
fn appended(
    alloc: Global,
    set: &ClassSet,
    image: MemoryImage,
) -> Result<(Recovered<MemoryImage>, bool), Fail> {
    let mut found = recovered(alloc, image)?;
    let is_planned = found.directory.plan(alloc, &SetClasses::of(set)).is_ok();
    let is_appended = is_planned && append(&mut found);
    Ok((found, is_appended))
}

/// Whether the first shapes of a directory have the names in `FIRST`.
fn begins_rightly(directory: &Directory) -> bool {
    for (n, name) in FIRST.iter().enumerate() {
        match directory.shape(n as u32) {
            Some(shape) if shape.name.as_slice() == name.as_bytes() => {}
            _ => return false,
        }
    }
    true
}

/// Whether a directory has all entries of the set.
fn is_whole(directory: &Directory) -> bool {
    let is_root = match directory.roots() {
        [root] => root.as_slice() == b"B.r".as_slice(),
        _ => false,
    };
    is_root && directory.shapes().len() == SHAPES && begins_rightly(directory)
}

/// Whether a graph has no nodes and so many roots, all null.
fn has_null_roots(graph: &SharedGraph, count: usize) -> bool {
    for root in graph.roots() {
        if root.value != Value::Null {
            return false;
        }
    }
    graph.roots().len() as usize == count && graph.nodes().len() == 0
}

/// Whether a set's entries are appended to a blank image, and a second run finds them all and adds none.
fn is_kept(alloc: Global, set: &ClassSet) -> Result<bool, Fail> {
    let (first, is_appended) = appended(alloc, set, blank(alloc, u64::MAX)?)?;
    let used = first.directory.used();
    let is_first = is_appended && is_whole(&first.directory);
    let (again, is_done) = appended(alloc, set, first.memory.into_image())?;
    let is_same = again.directory.used() == used && has_null_roots(&again.graph, 1);
    Ok(is_first && is_done && is_same && is_whole(&again.directory))
}

#[test]
fn a_class_sets_entries_are_appended(rt: HostRuntime) -> Result<(), Fail> {
    let set = linked(rt.alloc(), CLASSES)?;
    assert!(rt; is_kept(rt.alloc(), &set)?, "31 shapes and a root");
    Ok(())
}

/// Whether a directory with the entries of one set agrees with this one, or its first shape that doesn't.
fn agreement(alloc: Global, set: &ClassSet, with: &ClassSet) -> Result<Result<(), u32>, Fail> {
    let (found, _) = appended(alloc, set, blank(alloc, u64::MAX)?)?;
    let classes = SetClasses::of(with);
    let answer = found.directory.agree(&classes);
    Ok(answer)
}

#[test]
fn shapes_agree_with_their_own_set(rt: HostRuntime) -> Result<(), Fail> {
    let set = linked(rt.alloc(), CLASSES)?;
    let own = agreement(rt.alloc(), &set, &set)?;
    assert!(rt; own == Ok(()));
    Ok(())
}

#[test]
fn a_shape_with_another_field_disagrees(rt: HostRuntime) -> Result<(), Fail> {
    let set = linked(rt.alloc(), CLASSES)?;
    let others = linked(rt.alloc(), OTHERS)?;
    let other = agreement(rt.alloc(), &set, &others)?;
    assert!(rt; other == Err(0));
    Ok(())
}

/// The image with a set's entries, as far as they can be appended.
fn filled(alloc: Global, set: &ClassSet, mut found: Recovered<MemoryImage>) -> MemoryImage {
    let is_planned = found.directory.plan(alloc, &SetClasses::of(set)).is_ok();
    let _is_appended = is_planned && append(&mut found);
    found.memory.into_image()
}

/// The image of a run over a blank one that fails from a call on.
fn stopped(alloc: Global, set: &ClassSet, call: u64) -> Result<MemoryImage, Fail> {
    let image = blank(alloc, LINES.saturating_add(call))?;
    match recover(alloc, attach(alloc, image)?) {
        Ok(found) => Ok(filled(alloc, set, found)),
        Err((_, memory)) => Ok(memory.into_image()),
    }
}

/// Whether what a stop leaves by a pick, as entries are appended from a blank image that fails from a call on, is recovered with
/// null roots alone, takes the entries that it lacks, and is whole then.
fn goes_on(alloc: Global, set: &ClassSet, call: u64, pick: u64) -> Result<bool, Fail> {
    let left = stopped(alloc, set, call)?;
    let again = left.crash(alloc, pick, fails(alloc, u64::MAX))?;
    let (found, is_appended) = appended(alloc, set, again)?;
    let roots = found.graph.roots().len() as usize;
    Ok(is_appended && has_null_roots(&found.graph, roots) && is_whole(&found.directory))
}

#[test]
fn a_stopped_directory_goes_on(rt: HostRuntime) -> Result<(), Fail> {
    let set = linked(rt.alloc(), CLASSES)?;
    // The layout and the entries take 251 calls.
    for step in 0..11_u64 {
        for pick in 0..3 {
            let call = 1 + 25 * step;
            assert!(rt;
                goes_on(rt.alloc(), &set, call, pick)?,
                "call {call}, pick {pick}"
            );
        }
    }
    Ok(())
}
