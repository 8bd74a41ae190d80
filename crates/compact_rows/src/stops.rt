// What stops leave of both images, in each call.
use crate::images::{DENSE, LINES, LOGGED, SPARSE, differing, fails, image, sink};
use compact_call::{CompactFault, compact_images};
use image_report::dump_image;
use line_image::{Image, MemoryImage};
use std::alloc::{AllocError, Global};
use std::test::Fail;

/// The new image's calls once its lines are read: 32 lines of root slots, 2 of the directory, 64 of logs, 3 of objects and the
/// superblock's are written and fenced, and then the magic word.
const CALLS: u64 = 105;

/// What came of a new image that failed, and both images.
#[derive(Drop)]
struct Stopped {
    is_as_told: bool,
    old: MemoryImage,
    fresh: MemoryImage,
}

/// The graph is written to a new image that fails after so many of these calls. Gives both images back.
fn written_until(alloc: Global, old: MemoryImage, calls: u64) -> Result<Stopped, AllocError> {
    let since = LINES.saturating_add(calls).saturating_add(1);
    let fresh = MemoryImage::new(alloc, LINES, fails(alloc, since))?;
    let done = compact_images(alloc, old, fresh, sink(alloc, 100)?);
    let is_as_told = match done.outcome {
        Ok(()) => calls >= CALLS,
        Err(fault) => calls < CALLS && fault == CompactFault::ImageFailed,
    };
    Ok(Stopped {
        is_as_told,
        old: done.old,
        fresh: done.fresh,
    })
}

/// Whether nothing has told of a graph yet: word 0 is 0, and was so at first.
fn is_blank(image: &MemoryImage) -> bool {
    image.lines() == LINES && image.word(0, 0) == 0
}

/// Whether a stop by this pick leaves all of the graph, or a blank image.
fn left(alloc: Global, image: &MemoryImage, pick: u64) -> Result<(bool, bool), AllocError> {
    let left = image.crash(alloc, pick, fails(alloc, u64::MAX))?;
    Ok((differing(&left, &DENSE) == 0, is_blank(&left)))
}

#[test]
fn a_new_image_is_blank_before_the_last_two_calls(rt: HostRuntime) -> Result<(), Fail> {
    let alloc = rt.alloc();
    let mut old = image(alloc, LINES, &SPARSE, &[], u64::MAX)?;
    for calls in 0..CALLS - 2 {
        let done = written_until(alloc, old, calls)?;
        assert!(rt; done.is_as_told && is_blank(&done.fresh), "{calls}");
        old = done.old;
    }
    Ok(())
}

/// Before the last fence, pick 0 leaves what was fenced before, and 1 what was written last; behind it all is left.
#[test]
fn a_new_image_is_blank_or_whole_in_the_last_calls(rt: HostRuntime) -> Result<(), Fail> {
    let alloc = rt.alloc();
    let old = image(alloc, LINES, &SPARSE, &[], u64::MAX)?;
    let before = written_until(alloc, old, CALLS - 1)?;
    assert!(rt; before.is_as_told);
    assert_eq!(rt; left(alloc, &before.fresh, 0)?, (false, true));
    assert_eq!(rt; left(alloc, &before.fresh, 1)?, (true, false));
    for pick in 2..5 {
        let (is_whole, is_blank) = left(alloc, &before.fresh, pick)?;
        assert!(rt; is_whole || is_blank, "{pick}");
    }
    let after = written_until(alloc, before.old, CALLS)?;
    assert!(rt; after.is_as_told);
    assert_eq!(rt; left(alloc, &after.fresh, 0)?, (true, false));
    assert_eq!(rt; left(alloc, &after.fresh, 1)?, (true, false));
    Ok(())
}

const DUMPED: &str = "roots 1 nodes 3\nroot 0 Main.head #0\n\
    node #0 Node 2\nv = 1\nnext = #1\nnode #1 Node 2\nv = 2\nnext = #2\nnode #2 Node 2\nv = 3\nnext = #0\n";

/// The old image fails from a call on, while what its log has is put back: its graph stays the same.
#[test]
fn an_old_image_keeps_its_graph_at_each_stop(rt: HostRuntime) -> Result<(), Fail> {
    let alloc = rt.alloc();
    for calls in 0..8_u64 {
        let since = LINES.saturating_add(calls).saturating_add(1);
        let old = image(alloc, LINES, &SPARSE, &LOGGED, since)?;
        let fresh = image(alloc, LINES, &[], &[], u64::MAX)?;
        let done = compact_images(alloc, old, fresh, sink(alloc, 100)?);
        assert!(rt; done.outcome.is_ok() || done.outcome == Err(CompactFault::ImageFailed));
        for pick in 0..4 {
            let left = done.old.crash(alloc, pick, fails(alloc, u64::MAX))?;
            let dumped = dump_image(alloc, left, sink(alloc, 1_000)?);
            assert!(rt;
                dumped.sink.as_slice() == DUMPED.as_bytes(),
                "{calls} {pick}"
            );
        }
    }
    Ok(())
}
