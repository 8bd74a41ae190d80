// Histories and watchers, with values worked out by hand, and laws of plain runs at a concrete type.
use ap_base::ThreadNo;
use plain_model::{
    Throws, durable_places_refer_to_durable_objects, lines_are_for_wanted_objects,
    monitors_have_one_owner, one_more_act, one_store_of_a_thread_is_unfenced,
    only_what_was_wanted_becomes_durable, regions_are_begun_and_ended, stuck_threads_do_nothing,
    the_heap_of_a_plain_run_is_sound,
};
use run_history::{Act, Acts, NoWatch, Op, Watcher};
use run_types::{Full, Which};
use std::alloc::AllocError;
use std::test::Fail;

fn act(at: u64, op: Op) -> Act {
    Act {
        thread: ThreadNo::main(),
        at,
        op,
    }
}

/// Numbers of acts, and the objects that each takes.
static NAMED: [(u32, &[u32]); 6] = [
    (0, &[]),
    (1, &[7, 5]),
    (2, &[]),
    (3, &[9]),
    (4, &[]),
    (5, &[]),
];

/// Whether there are five acts, with these as the first and the last.
fn has_acts(acts: &Acts) -> bool {
    acts.len() == 5
        && acts.get(0).copied() == Some(act(0, Op::Pause))
        && acts.get(4).copied() == Some(act(8, Op::Joined))
        && acts.get(5).is_none()
}

#[test]
fn a_joined_act_takes_what_was_named(rt: HostRuntime) -> Result<(), Fail> {
    let mut acts = Acts::new(rt.alloc());
    acts.reserve(5, 3)?;
    acts.name(7);
    acts.name(5);
    let first = acts.push(act(0, Op::Pause)).is_ok();
    let joined = acts.push(act(3, Op::Joined)).is_ok();
    let begun = acts.push(act(3, Op::Begin)).is_ok();
    acts.name(9);
    let again = acts.push(act(8, Op::Joined)).is_ok();
    let last = acts.push(act(8, Op::Joined)).is_ok();
    assert!(rt; first && joined && begun && again && last, "there is room");
    assert!(rt; has_acts(&acts), "five acts");
    for (i, objects) in &NAMED {
        assert!(rt; acts.named(*i) == *objects, "of act {i}");
    }
    Ok(())
}

const FULL: Full = Full {
    which: Which::Acts,
    need: 1,
    left: 0,
};

/// For so many acts there is room, if any were asked for; what one more answers, and how many are there then.
static LIMITS: [(u32, Result<(), Full>, u32); 6] = [
    (0, Err(FULL), 0),
    (2, Ok(()), 1),
    (2, Ok(()), 2),
    (2, Err(FULL), 2),
    (2, Err(FULL), 2),
    (3, Ok(()), 3),
];

/// What one more act answers, with room for so many if any are asked for.
fn pushed_with(acts: &mut Acts, limit: u32) -> Result<Result<(), Full>, AllocError> {
    if limit > 0 {
        acts.reserve(limit, 0)?;
    }
    Ok(acts.push(act(1, Op::Pause)))
}

#[test]
fn full_exactly_at_the_limit(rt: HostRuntime) -> Result<(), Fail> {
    let mut acts = Acts::new(rt.alloc());
    for (limit, answer, len) in &LIMITS {
        let pushed = pushed_with(&mut acts, *limit)?;
        assert!(rt; pushed == *answer && acts.len() == *len, "room for {limit}");
    }
    Ok(())
}

/// How many acts it was told, and how many objects.
#[derive(Drop)]
struct Counts {
    acts: usize,
    objects: usize,
}

impl Watcher for Counts {
    ghost use Rattle.std.specs.Prelude.{None};

    ghost seen = { λ _. None };

    fn saw(&mut self, _act: &Act, objects: &[u32]) {
        self.acts = self.acts.saturating_add(1);
        self.objects = self.objects.saturating_add(objects.len());
    }
}

fn tell_all<W: Watcher>(watcher: &mut W, acts: &Acts) {
    for i in 0..acts.len() {
        if let Some(act) = acts.get(i) {
            watcher.saw(act, acts.named(i));
        }
    }
}

#[test]
fn watchers_are_told(rt: HostRuntime) -> Result<(), Fail> {
    let mut acts = Acts::new(rt.alloc());
    acts.reserve(3, 2)?;
    acts.name(1);
    acts.name(4);
    for op in [Op::Joined, Op::Fenced, Op::End] {
        acts.push(act(6, op)).map_err(|_| "room")?;
    }
    let mut counts = Counts {
        acts: 0,
        objects: 0,
    };
    tell_all(&mut counts, &acts);
    tell_all(&mut NoWatch, &acts);
    assert!(rt; counts.acts == 3 && counts.objects == 2);
    Ok(())
}

/// Whether an answer is the throwable that was asked for, by the bounds alone.
fn is_the<T: PartialEq + Copy>(one: T, other: T) -> bool {
    one == other
}

#[test]
fn throwables_are_told_apart(rt: HostRuntime) {
    let thrown = Throws::ArrayStore;
    assert!(rt; is_the(thrown, thrown) && !is_the(thrown, Throws::ClassCast));
    assert!(rt; matches!(&thrown, Throws::ArrayStore));
}

/// The laws are about code whatever it keeps of a thread.
#[test]
fn laws_are_of_any_frames() {
    one_more_act::<u32>();
    durable_places_refer_to_durable_objects::<u32>();
    only_what_was_wanted_becomes_durable::<u32>();
    the_heap_of_a_plain_run_is_sound::<u32>();
    one_store_of_a_thread_is_unfenced::<u32>();
    regions_are_begun_and_ended::<u32>();
    monitors_have_one_owner::<u32>();
    stuck_threads_do_nothing::<u32>();
    lines_are_for_wanted_objects::<u32>();
}
