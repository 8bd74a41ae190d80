//! Three nodes 1, 2, 3 in a ring become durable by one store into the root.
use crate::fixture::{first, hear_all, heard};
use act_book::open;
use ap_base::Place;
use graph_model::Value;
use live_heap::{Followed, Look};
use run_history::Op;
use std::test::Fail;

fn slot(object: u32, index: u32) -> Place {
    Place::Slot { object, index }
}

/// A new Node.
fn node(object: u32) -> Op {
    Op::Alloc {
        object,
        shape: 0,
        length: 2,
    }
}

fn stored(place: Place, value: Value) -> Op {
    Op::Stored { place, value }
}

/// `a.v = 1; b.v = 2; c.v = 3; a.next = b; b.next = c; c.next = a; head = a`.
fn ring() -> [Op; 15] {
    let head = Place::Static(1);
    [
        node(1),
        node(2),
        node(3),
        stored(slot(1, 0), Value::Int(1)),
        stored(slot(2, 0), Value::Int(2)),
        stored(slot(3, 0), Value::Int(3)),
        stored(slot(1, 1), Value::Obj(2)),
        stored(slot(2, 1), Value::Obj(3)),
        stored(slot(3, 1), Value::Obj(1)),
        Op::Asked {
            place: head,
            value: Value::Obj(1),
        },
        Op::Joined,
        stored(head, Value::Obj(1)),
        Op::Fenced,
        Op::Pause,
        Op::Ended { uncaught: None },
    ]
}

/// Acts that fit no heap: a number that isn't the next one, no such class, a length that no Node has, no such place, no
/// such object.
fn misfits() -> [Op; 5] {
    [
        node(7),
        Op::Throw {
            object: 1,
            class: 9,
        },
        Op::Alloc {
            object: 1,
            shape: 0,
            length: 3,
        },
        stored(slot(0, 0), Value::Null),
        stored(Place::Static(1), Value::Obj(8)),
    ]
}

#[test]
fn a_ring_is_seen(rt: HostRuntime) -> Result<(), Fail> {
    let alloc = rt.alloc();
    let mut live = first(alloc)?;
    let before = live.look(alloc)?;
    hear_all(alloc, &mut live, &ring(), &[1, 2, 3])?;
    let copy = live.copy(alloc)?;
    let after = copy.look(alloc)?;
    let acts = live.acts();
    let third = live.path(0, &[1, 1, 0]);
    let none = live.path(0, &[0, 0]);
    let no_root = live.path(1, &[]);
    assert!(rt;
        before
            == Look {
                acts: 0,
                roots: 0,
                nodes: 0,
                stores: 0
            }
    );
    assert!(rt;
        after
            == Look {
                acts: 15,
                roots: 1,
                nodes: 3,
                stores: 1
            }
    );
    assert!(rt; acts == 15);
    assert!(rt; third == Followed::Found(Value::Int(3)));
    assert!(rt; none == Followed::NoPath { step: 2 });
    assert!(rt; no_root == Followed::NoPath { step: 0 });
    Ok(())
}

#[test]
fn acts_that_fit_nothing_are_counted_alone(rt: HostRuntime) -> Result<(), Fail> {
    let alloc = rt.alloc();
    let mut live = first(alloc)?;
    hear_all(alloc, &mut live, &misfits(), &[])?;
    let look = live.look(alloc)?;
    assert!(rt;
        look == Look {
            acts: 5,
            roots: 0,
            nodes: 0,
            stores: 0
        }
    );
    Ok(())
}

#[test]
fn a_front_begins_a_longer_one(rt: HostRuntime) -> Result<(), Fail> {
    let (head, empty) = open();
    let act = heard(rt.alloc(), &Op::Pause, &[])?;
    let Some(one) = empty.with(&head, &act) else {
        return Err("an act more".into());
    };
    empty.begins(&one);
    let longer = empty.longer(&one).acts();
    let again = one.again().acts();
    let behind = empty.with(&head, &act).is_none();
    assert!(rt; longer == 1 && again == 1 && empty.acts() == 0);
    assert!(rt; behind);
    Ok(())
}
