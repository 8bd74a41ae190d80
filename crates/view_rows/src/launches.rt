// A view that begins with a class set and its opening graph.
use live_launch::begin_live;
use live_view::Look;
use run_types::Limits;
use set_fixture::{linked, null_opening};
use std::test::Fail;

/// A class with a durable root, whose `main` does nothing.
const MAIN: &str = ".class Main\n.super java/lang/Object\n.field data [I static root\n\
    .method main ([Ljava/lang/String;)V 1 1 static\nreturn\n.end\n";

const LIMITS: Limits = Limits {
    heap_words: 30_000,
    acts: 1_000,
};

#[test]
fn a_view_begins_with_the_opening(rt: HostRuntime) -> Result<(), Fail> {
    let alloc = rt.alloc();
    let set = linked(alloc, MAIN.as_bytes())?;
    let Some(opening) = null_opening(alloc, &set)? else {
        return Err("an opening".into());
    };
    let (writer, mut readers) = begin_live(&rt, alloc, &set, &opening, &LIMITS, 1)?;
    let Some(mut reader) = readers.pop() else {
        return Err("a reader".into());
    };
    let seen = reader.look(&rt, alloc)?;
    let nothing = Look {
        acts: 0,
        roots: 0,
        nodes: 0,
        stores: 0,
    };
    assert!(rt; !writer.frozen() && seen == nothing);
    Ok(())
}
