// What stops leave: each half stops at a call of its own, and what is left is paired.
use crate::fixture::{NONE, half, left, paired, read, steps};
use line_image::MemoryImage;
use mirror_image::Mirror;
use std::alloc::Global;
use std::test::Fail;

/// The two values that a stop may leave in line 0 and in line 1, after so many steps, within the next one; none were begun at 6.
const LEFT: [[u64; 4]; 7] = [
    [0, 10, 0, 0],
    [0, 10, 0, 20],
    [0, 10, 0, 20],
    [10, 10, 20, 21],
    [10, 10, 20, 21],
    [10, 10, 21, 21],
    [0, 0, 0, 0],
];

/// Whether each word of the line is one of these two.
fn has(words: Option<[u64; 8]>, one: u64, other: u64) -> bool {
    match words {
        Some(words) => words.iter().all(|word| *word == one || *word == other),
        None => false,
    }
}

/// Pairs what a stop leaves. Answers whether the lines are as after so many steps.
fn shows(
    alloc: Global,
    a: &MemoryImage,
    b: &MemoryImage,
    pick: u64,
    made: u32,
) -> Result<bool, Fail> {
    let mut mirror = paired(left(alloc, a, pick)?, left(alloc, b, pick)?)?;
    let [one, other, two, three] = match LEFT.get(made as usize) {
        Some(values) => *values,
        None => return Ok(false),
    };
    let first = has(read(&mut mirror, 0), one, other);
    let second = has(read(&mut mirror, 1), two, three);
    Ok(first && second && has(read(&mut mirror, 2), 0, 0))
}

/// The halves stop at these calls.
fn stop(alloc: Global, first: u64, second: u64) -> Result<bool, Fail> {
    let a = half(alloc, 4, NONE, first)?;
    let b = half(alloc, 4, NONE, second)?;
    let (a, b, made) = match Mirror::pair(a, b) {
        Ok(mut mirror) => {
            let made = steps(&mut mirror);
            let (a, b) = mirror.halves();
            (a, b, made)
        }
        Err((_, a, b)) => (a, b, 6),
    };
    for pick in 0..6 {
        if !shows(alloc, &a, &b, pick, made)? {
            return Ok(false);
        }
    }
    Ok(true)
}

#[test]
fn stops_leave_what_the_mirror_may_show(rt: HostRuntime) -> Result<(), Fail> {
    for first in 1..22 {
        for second in 1..24 {
            assert!(rt; stop(rt.alloc(), first, second)?, "at {first} and {second}");
        }
    }
    Ok(())
}
