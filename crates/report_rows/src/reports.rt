// What the commands print, how they end, and what is left.
ghost use Rattle.std.specs.Prelude.{◌<◌};

use crate::images::{LINES, RING, Word, image};
use ap_base::MemorySink;
use image_layout::BadReason;
use image_opening::NotOpened;
use image_report::{NotReported, Reported, check_image, dump_image};
use line_image::MemoryImage;
use std::alloc::{AllocError, Global};
use std::test::Fail;

/// The words that an image has, those that are changed in them, and what `check` and `dump` print of it.
type Row = (&'static [Word], &'static [Word], &'static str, &'static str);

const EMPTY_CHECK: &str = "version 1 lines 32768 free 20577 roots 0 nodes 0 undone 0\n";

const EMPTY_DUMP: &str = "roots 0 nodes 0\n";

const RING_CHECK: &str = "version 1 lines 32768 free 20580 roots 1 nodes 3 undone 0\n";

const RING_DUMP: &str = "roots 1 nodes 3\nroot 0 Main.head #0\n\
    node #0 Node 2\nv = 1\nnext = #1\nnode #1 Node 2\nv = 2\nnext = #2\nnode #2 Node 2\nv = 3\nnext = #0\n";

static ROWS: [Row; 5] = [
    // a blank image is formatted, whatever stands behind its first word
    (&[], &[], EMPTY_CHECK, EMPTY_DUMP),
    (&RING, &[(0, 0, 0)], EMPTY_CHECK, EMPTY_DUMP),
    (&RING, &[], RING_CHECK, RING_DUMP),
    // the root is null
    (
        &RING,
        &[(1, 0, 0)],
        "version 1 lines 32768 free 20577 roots 1 nodes 0 undone 0\n",
        "roots 1 nodes 0\nroot 0 Main.head null\n",
    ),
    // a log has two entries: a node's next was null, and its v was -5
    (
        &RING,
        &[
            (4_129, 0, 2),
            (4_130, 0, 8 * 20_577 + 2),
            (4_130, 1, 0),
            (4_130, 2, 8 * 20_577 + 1),
            (4_130, 3, 0xFFFF_FFFB),
        ],
        "version 1 lines 32768 free 20578 roots 1 nodes 1 undone 1\n",
        "roots 1 nodes 1\nroot 0 Main.head #0\nnode #0 Node 2\nv = -5\nnext = null\n",
    ),
];

/// A sink with room for so many bytes, which takes so many of a piece at most.
fn sink(alloc: Global, room: u64, most: u64) -> Result<MemorySink, AllocError>
    requires { 0 < most }
{
    MemorySink::new(alloc, room, most, Vec::new(alloc))
}

/// Whether this was printed, all of it.
fn is_printed(reported: &Reported<MemoryImage, MemorySink>, text: &str) -> bool {
    reported.how == Ok(()) && reported.sink.as_slice() == text.as_bytes()
}

/// Whether nothing was printed, for this cause.
fn is_refused(reported: &Reported<MemoryImage, MemorySink>, why: NotReported) -> bool {
    reported.how == Err(why) && reported.sink.as_slice().is_empty()
}

#[test]
fn images_are_printed(rt: HostRuntime) -> Result<(), Fail> {
    let alloc = rt.alloc();
    for (first, changed, check, dump) in ROWS {
        let one = check_image(
            alloc,
            image(alloc, first, changed, u64::MAX)?,
            sink(alloc, 1_000, 1)?,
        );
        assert!(rt; is_printed(&one, check));
        let other = dump_image(
            alloc,
            image(alloc, first, changed, u64::MAX)?,
            sink(alloc, 1_000, 1_000)?,
        );
        assert!(rt; is_printed(&other, dump));
        // and once more the image that was given back
        let again = check_image(alloc, other.image, sink(alloc, 1_000, 7)?);
        assert!(rt; again.how == Ok(()));
    }
    Ok(())
}

/// An image is bad, or fails at its first call: nothing is printed.
#[test]
fn nothing_is_printed_of_images_that_are_refused(rt: HostRuntime) -> Result<(), Fail> {
    let alloc = rt.alloc();
    let bad = NotReported::Unopened(NotOpened::BadImage {
        line: 1,
        reason: BadReason::Reference,
    });
    let odd = image(alloc, &RING, &[(1, 0, 80_000)], u64::MAX)?;
    assert!(rt; is_refused(&check_image(alloc, odd, sink(alloc, 1_000, 1_000)?), bad));
    let odd = image(alloc, &RING, &[(1, 0, 80_000)], u64::MAX)?;
    assert!(rt; is_refused(&dump_image(alloc, odd, sink(alloc, 1_000, 1_000)?), bad));
    let failed = NotReported::Unopened(NotOpened::ImageFailed);
    let fails = image(alloc, &RING, &[], LINES + 1)?;
    assert!(rt;
        is_refused(
            &dump_image(alloc, fails, sink(alloc, 1_000, 1_000)?),
            failed
        )
    );
    Ok(())
}

/// A sink with room for twenty bytes fails behind them.
#[test]
fn a_front_is_printed_where_the_sink_fails(rt: HostRuntime) -> Result<(), Fail> {
    let alloc = rt.alloc();
    let dumped = dump_image(
        alloc,
        image(alloc, &RING, &[], u64::MAX)?,
        sink(alloc, 20, 3)?,
    );
    assert!(rt; dumped.how == Err(NotReported::SinkFailed));
    assert!(rt; dumped.sink.as_slice() == b"roots 1 nodes 3\nroot".as_slice());
    Ok(())
}
