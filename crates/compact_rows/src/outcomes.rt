// How it ends where it can't be done, and what is left of the new image then.
ghost use Rattle.std.specs.Prelude.{◌≤◌};

use crate::images::{DENSE, LINES, SPARSE, Word, array_of, differing, image, sink};
use ap_base::MemorySink;
use compact_call::{CompactFault, Compacted, NewReason, compact_images};
use image_layout::BadReason;
use line_image::MemoryImage;
use run_types::{Full, Which};
use std::alloc::{AllocError, Global};
use std::test::Fail;

type Done = Compacted<MemoryImage, MemoryImage, MemorySink>;

/// What comes of an image of these words and a new one of so many lines that has these.
fn compacted(
    alloc: Global,
    old: &[Word],
    changed: &[Word],
    lines: u64,
    fresh: &[Word],
) -> Result<Done, AllocError>
    requires { lines ≤ 50000 }
{
    let old = image(alloc, LINES, old, changed, u64::MAX)?;
    let fresh = image(alloc, lines, fresh, &[], u64::MAX)?;
    Ok(compact_images(alloc, old, fresh, sink(alloc, 100)?))
}

/// Whether it was refused for this fault, nothing was put, and the new image has these words still.
fn is_refused(done: &Done, fault: CompactFault, fresh: &[Word]) -> bool {
    done.outcome == Err(fault)
        && done.sink.as_slice().is_empty()
        && differing(&done.fresh, fresh) == 0
}

#[test]
fn images_are_refused_in_this_order(rt: HostRuntime) -> Result<(), Fail> {
    let alloc = rt.alloc();
    let bad = CompactFault::BadImage {
        line: 20_600,
        reason: BadReason::Shape,
    };
    let odd = [(20_600, 0, 0x2_0000_0007)];
    // the old image is bad, whatever the new one is
    let done = compacted(alloc, &SPARSE, &odd, LINES, &DENSE)?;
    assert!(rt; is_refused(&done, bad, &DENSE));
    let done = compacted(alloc, &SPARSE, &odd, LINES - 1, &[])?;
    assert!(rt; is_refused(&done, bad, &[]));
    // the new one has too few lines, or is in use
    let done = compacted(alloc, &SPARSE, &[], LINES - 1, &DENSE)?;
    assert!(rt; is_refused(&done, CompactFault::NewImage(NewReason::Size), &DENSE));
    let done = compacted(alloc, &SPARSE, &[], LINES, &DENSE)?;
    assert!(rt; is_refused(&done, CompactFault::NewImage(NewReason::NotBlank), &DENSE));
    let done = compacted(alloc, &[], &[], LINES, &[(0, 0, 1)])?;
    assert!(rt;
        is_refused(
            &done,
            CompactFault::NewImage(NewReason::NotBlank),
            &[(0, 0, 1)]
        )
    );
    Ok(())
}

/// The new image has lines for 12,191: an array of 97,527 longs takes as many, and one of 97,528 one more.
#[test]
fn arrays_fit_or_not(rt: HostRuntime) -> Result<(), Fail> {
    let alloc = rt.alloc();
    let old = image(alloc, 40_000, &array_of(97_527), &[], u64::MAX)?;
    let fresh = image(alloc, LINES, &[], &[], 40_000)?;
    let done = compact_images(alloc, old, fresh, sink(alloc, 100)?);
    assert!(rt; done.outcome == Err(CompactFault::ImageFailed));
    let old = image(alloc, 40_000, &array_of(97_528), &[], u64::MAX)?;
    let fresh = image(alloc, LINES, &[], &[], 40_000)?;
    let done = compact_images(alloc, old, fresh, sink(alloc, 100)?);
    let full = CompactFault::Full(Full {
        which: Which::ImageLines,
        need: 12_192,
        left: 12_191,
    });
    assert!(rt; is_refused(&done, full, &[]));
    Ok(())
}

/// The image of an image without roots has none.
#[test]
fn a_blank_image_is_written_as_one_without_roots(rt: HostRuntime) -> Result<(), Fail> {
    let alloc = rt.alloc();
    let done = compacted(alloc, &[], &[], LINES, &[])?;
    assert!(rt; done.outcome.is_ok());
    assert!(rt; done.sink.as_slice() == b"nodes 0 lines 0\n".as_slice());
    let empty = [(0, 0, 0x5352_4550_4F54_5541), (0, 1, 1), (0, 2, LINES)];
    assert_eq!(rt; differing(&done.fresh, &empty), 0);
    Ok(())
}

/// A sink that fails is told once the new image is written.
#[test]
fn the_sink_fails_last(rt: HostRuntime) -> Result<(), Fail> {
    let alloc = rt.alloc();
    let old = image(alloc, LINES, &SPARSE, &[], u64::MAX)?;
    let fresh = image(alloc, LINES, &[], &[], u64::MAX)?;
    let done = compact_images(alloc, old, fresh, sink(alloc, 7)?);
    assert!(rt; done.outcome == Err(CompactFault::SinkFailed));
    assert!(rt; done.sink.as_slice() == b"nodes 3".as_slice());
    assert_eq!(rt; differing(&done.fresh, &DENSE), 0);
    Ok(())
}
