// Halves that fail, and are replaced.
use crate::fixture::{
    FIRST_PAIRED, NONE, SECOND_PAIRED, WHOLE, half, left, paired, read, steps, whole, whole_left,
    wrote,
};
use line_image::Image;
use mirror_image::{Mirror, MirrorFault};
use std::alloc::Global;
use std::test::Fail;

// One half fails at one call, whichever it is. The mirror goes on with the other, and once a half of zeros stands in its place, it shows
// the same.
fn survives(alloc: Global, first: u64, second: u64) -> Result<bool, Fail> {
    let a = half(alloc, 4, first, NONE)?;
    let b = half(alloc, 4, second, NONE)?;
    let (a, b, made) = match Mirror::pair(a, b) {
        Ok(mut mirror) => {
            let made = steps(&mut mirror);
            let (a, b) = mirror.halves();
            (a, b, made)
        }
        Err((fault, a, b)) => (
            a,
            b,
            if fault == MirrorFault::ImageFailed {
                6
            } else {
                7
            },
        ),
    };
    let zeros = half(alloc, 4, NONE, NONE)?;
    let mut mirror = if first == NONE {
        paired(left(alloc, &a, 1)?, zeros)?
    } else {
        paired(zeros, left(alloc, &b, 1)?)?
    };
    let found = [
        read(&mut mirror, 0),
        read(&mut mirror, 1),
        read(&mut mirror, 2),
    ];
    if made == 6 {
        return Ok(found == [Some([0; 8]); 3]);
    }
    Ok(made == 5 && found == [Some([10; 8]), Some([21; 8]), Some([0; 8])])
}

#[test]
fn a_half_may_fail_at_any_call(rt: HostRuntime) -> Result<(), Fail> {
    for call in 1..20 {
        assert!(rt; survives(rt.alloc(), call, NONE)?, "the first at {call}");
        assert!(rt; survives(rt.alloc(), NONE, call)?, "the second at {call}");
    }
    Ok(())
}

/// Both fail at their second write after pairing.
fn both_fail(alloc: Global) -> Result<bool, Fail> {
    let a = half(alloc, 4, FIRST_PAIRED + 2, NONE)?;
    let b = half(alloc, 4, SECOND_PAIRED + 2, NONE)?;
    let Ok(mut mirror) = Mirror::pair(a, b) else {
        return Ok(false);
    };
    Ok(wrote(&mut mirror, 0, 1) && !wrote(&mut mirror, 0, 2) && mirror.fence().is_err())
}

/// The last line that a mirror of the whole size shows.
const LAST: u64 = WHOLE - 2;

/// Halves of an image's whole size, of which the first fails from its first write after pairing on: the mirror goes on with the
/// other. Paired again, with a half of zeros in place of the first, it shows the same.
fn whole_size(alloc: Global) -> Result<bool, Fail> {
    let Ok(mut mirror) = Mirror::pair(whole(alloc, WHOLE + 6)?, whole(alloc, NONE)?) else {
        return Ok(false);
    };
    let made = wrote(&mut mirror, 0, 1)
        && wrote(&mut mirror, LAST, 2)
        && mirror.fence().is_ok()
        && wrote(&mut mirror, LAST, 3);
    let shown = read(&mut mirror, LAST);
    let (_failed, b) = mirror.halves();
    let mut again = paired(whole(alloc, NONE)?, whole_left(alloc, &b)?)?;
    Ok(
        made && shown == Some([3; 8])
            && again.lines() == LAST + 1
            && read(&mut again, 0) == Some([1; 8])
            && read(&mut again, LAST) == Some([3; 8]),
    )
}

#[test]
fn a_mirror_of_the_whole_size(rt: HostRuntime) -> Result<(), Fail> {
    assert!(rt; whole_size(rt.alloc())?);
    Ok(())
}

/// Why halves of so many lines aren't paired.
fn fault(alloc: Global, first: u64, second: u64) -> Result<Option<MirrorFault>, Fail> {
    match Mirror::pair(
        half(alloc, first, NONE, NONE)?,
        half(alloc, second, NONE, NONE)?,
    ) {
        Ok(_) => Ok(None),
        Err((fault, _, _)) => Ok(Some(fault)),
    }
}

/// A mirror that is closed fails at each call.
fn closed(alloc: Global) -> Result<bool, Fail> {
    let mut mirror = Mirror::closed(half(alloc, 4, NONE, NONE)?, half(alloc, 3, NONE, NONE)?);
    let lines = mirror.lines();
    Ok(
        lines == 32_768
            && read(&mut mirror, 0).is_none()
            && !wrote(&mut mirror, 0, 1)
            && mirror.fence().is_err(),
    )
}

#[test]
fn pairing(rt: HostRuntime) -> Result<(), Fail> {
    let alloc = rt.alloc();
    assert!(rt; both_fail(alloc)?);
    assert!(rt; closed(alloc)?);
    assert!(rt; fault(alloc, 32_769, 32_768)? == Some(MirrorFault::Size));
    assert!(rt; fault(alloc, 1, 1)? == Some(MirrorFault::Size));
    assert!(rt; fault(alloc, 2, 2)?.is_none());
    Ok(())
}
