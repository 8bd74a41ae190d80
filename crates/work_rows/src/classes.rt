// The workload's classes.
use class_links::name_of;
use std::test::Fail;
use workload::make_classes;

static NAMES: [&[u8]; 3] = [b"Node", b"Adder", b"Work"];

#[test]
fn classes_are_made(rt: HostRuntime) -> Result<(), Fail> {
    for count in [1, 5_000] {
        let classes = make_classes(rt.alloc(), count)?;
        let are_named = classes
            .iter()
            .zip(NAMES.iter())
            .all(|(class, name)| name_of(class) == *name);
        assert!(rt; classes.len() == 3 && are_named, "{count} nodes");
    }
    Ok(())
}
