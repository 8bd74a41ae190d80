// The words of a dense image.
use crate::images::{DENSE, LINES, LOGGED, SPARSE, differing, image, sink};
use compact_call::{Compacted, compact_images};
use image_report::check_image;
use std::test::Fail;

#[test]
fn a_dense_image_has_these_words(rt: HostRuntime) -> Result<(), Fail> {
    let alloc = rt.alloc();
    let old = image(alloc, LINES, &SPARSE, &[], u64::MAX)?;
    let fresh = image(alloc, LINES, &[], &[], u64::MAX)?;
    let Compacted {
        outcome,
        old,
        fresh,
        sink: taken,
    } = compact_images(alloc, old, fresh, sink(alloc, 100)?);
    assert!(rt; outcome.is_ok());
    assert!(rt; taken.as_slice() == b"nodes 3 lines 3\n".as_slice());
    assert_eq!(rt; differing(&fresh, &DENSE), 0);
    assert_eq!(rt; differing(&old, &SPARSE), 0);
    // it opens again: its first free line is the one behind three nodes
    let checked = check_image(alloc, fresh, sink(alloc, 100)?);
    assert!(rt;
        checked.sink.as_slice()
            == b"version 1 lines 32768 free 20580 roots 1 nodes 3 undone 0\n".as_slice()
    );
    // and a dense image is written as it is
    let again = image(alloc, LINES, &[], &[], u64::MAX)?;
    let done = compact_images(alloc, checked.image, again, sink(alloc, 100)?);
    assert!(rt; done.outcome.is_ok());
    assert_eq!(rt; differing(&done.fresh, &DENSE), 0);
    Ok(())
}

/// What a log has is put back before the graph is read, and whatever a blank image holds behind its first word is written over
/// where the new one has something.
#[test]
fn the_graph_is_the_one_that_logs_lead_to(rt: HostRuntime) -> Result<(), Fail> {
    let alloc = rt.alloc();
    let old = image(alloc, LINES, &SPARSE, &LOGGED, u64::MAX)?;
    let fresh = image(
        alloc,
        LINES,
        &DENSE,
        &[(0, 0, 0), (1, 1, 7), (4_129, 0, 3)],
        u64::MAX,
    )?;
    let done = compact_images(alloc, old, fresh, sink(alloc, 100)?);
    assert!(rt; done.outcome.is_ok());
    assert_eq!(rt; differing(&done.fresh, &DENSE), 0);
    Ok(())
}
