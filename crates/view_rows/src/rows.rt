//! Three nodes 1, 2, 3 in a ring become durable by one store into the root.
use crate::fixture::{first, is_watcher, see_all, watch};
use ap_base::Place;
use graph_model::Value;
use live_view::{Followed, Look};
use run_history::Op;
use std::test::Fail;

fn slot(object: u32, index: u32) -> Place {
    Place::Slot { object, index }
}

/// A new Node.
fn node(object: u32) -> Op {
    Op::Alloc {
        object,
        shape: 0,
        length: 2,
    }
}

fn stored(place: Place, value: Value) -> Op {
    Op::Stored { place, value }
}

/// `a.v = 1; b.v = 2; c.v = 3; a.next = b; b.next = c; c.next = a; head = a`.
fn ring() -> [Op; 15] {
    let head = Place::Static(1);
    [
        node(1),
        node(2),
        node(3),
        stored(slot(1, 0), Value::Int(1)),
        stored(slot(2, 0), Value::Int(2)),
        stored(slot(3, 0), Value::Int(3)),
        stored(slot(1, 1), Value::Obj(2)),
        stored(slot(2, 1), Value::Obj(3)),
        stored(slot(3, 1), Value::Obj(1)),
        Op::Asked {
            place: head,
            value: Value::Obj(1),
        },
        Op::Joined,
        stored(head, Value::Obj(1)),
        Op::Fenced,
        Op::Pause,
        Op::Ended { uncaught: None },
    ]
}

/// Acts that fit no heap: a number that isn't the next one, no such class, a length that no Node has, no such place, no
/// such object.
fn misfits() -> [Op; 5] {
    [
        node(7),
        Op::Throw {
            object: 1,
            class: 9,
        },
        Op::Alloc {
            object: 1,
            shape: 0,
            length: 3,
        },
        stored(slot(0, 0), Value::Null),
        stored(Place::Static(1), Value::Obj(8)),
    ]
}

#[test]
fn a_ring_is_seen_once_it_is_told(rt: HostRuntime) -> Result<(), Fail> {
    let alloc = rt.alloc();
    let Some((mut writer, mut reader)) = watch(&rt, alloc, first(alloc)?)? else {
        return Err("a reader".into());
    };
    is_watcher(&writer);
    let before = reader.look(&rt, alloc)?;
    see_all(&mut writer, &ring(), &[1, 2, 3]);
    let told = writer.tell();
    let told_acts = told.acts();
    reader.learn(&told);
    let count = reader.count(&rt);
    let after = reader.look(&rt, alloc)?;
    let third = reader.path(&rt, 0, &[1, 1, 0]);
    let none = reader.path(&rt, 0, &[0, 0]);
    let no_root = reader.path(&rt, 1, &[]);
    let frozen = writer.frozen();
    assert!(rt;
        before
            == Look {
                acts: 0,
                roots: 0,
                nodes: 0,
                stores: 0
            }
    );
    assert!(rt; told_acts == 15 && count == 15 && !frozen);
    assert!(rt;
        after
            == Look {
                acts: 15,
                roots: 1,
                nodes: 3,
                stores: 1
            }
    );
    assert!(rt; third == Followed::Found(Value::Int(3)));
    assert!(rt; none == Followed::NoPath { step: 2 });
    assert!(rt; no_root == Followed::NoPath { step: 0 });
    Ok(())
}

#[test]
fn acts_that_fit_nothing_are_counted_alone(rt: HostRuntime) -> Result<(), Fail> {
    let alloc = rt.alloc();
    let Some((mut writer, mut reader)) = watch(&rt, alloc, first(alloc)?)? else {
        return Err("a reader".into());
    };
    see_all(&mut writer, &misfits(), &[]);
    let unseen = reader.count(&rt);
    let told = writer.tell();
    reader.learn(&told);
    let look = reader.look(&rt, alloc)?;
    assert!(rt; unseen == 0);
    assert!(rt;
        look == Look {
            acts: 5,
            roots: 0,
            nodes: 0,
            stores: 0
        }
    );
    Ok(())
}
