// What is looked up in a linked set of four classes. Numbers 0 to 3 are those of A, B, I and J, 4 to 31 those of the built-in classes, and
// from 32 on those of the array types: [C, [I, [Ljava/lang/Object;, [Ljava/lang/String;, [S and [[I.
use ap_base::{Kind, Ref};
use class_set::{ClassSet, link};
use listing::assemble;
use run_types::{FieldAt, Known, MethodAt};
use std::alloc::Global;
use std::str::from_utf8;
use std::test::Fail;

const CLASSES: &[u8] = b".class A
.super B
.implements J
.field a [I
.method run ()V 2 1
ldc \"one\"
pop
ldc \"twenty\"
pop
ldc \"one\"
pop
iconst_1
newarray int
pop
iconst_1
anewarray java/lang/Object
checkcast [[I
pop
return
.end
.class B
.super java/lang/Object
.implements I
.field s I static
.field r LA; static root
.field b I
.method m ()V 2 1
from:
ldc \"twenty\"
pop
to:
return
handler:
athrow
.catch [S from to handler
.end
.method run ()V 0 1
return
.end
.interface I
.super java/lang/Object
.interface J
.super java/lang/Object
.field s I static
.method p ()V 0 0 abstract
.end
";

/// The number of java/lang/Object.
const OBJECT: u32 = 22;

fn linked(alloc: Global) -> Result<ClassSet, Fail> {
    let files = assemble(alloc, CLASSES)?;
    if files.len() > 4096 {
        return Err("few classes".into());
    }
    match link(alloc, files) {
        Ok(set) => Ok(set),
        Err(_) => Err("classes that link".into()),
    }
}

/// Names, and their numbers.
static NUMBERS: [(&[u8], Option<u32>); 14] = [
    (b"A", Some(0)),
    (b"B", Some(1)),
    (b"J", Some(3)),
    (b"autopersist/Region", Some(4)),
    (b"java/lang/Object", Some(OBJECT)),
    (b"[C", Some(32)),
    (b"[I", Some(33)),
    (b"[Ljava/lang/Object;", Some(34)),
    (b"[Ljava/lang/String;", Some(35)),
    (b"[S", Some(36)),
    (b"[[I", Some(37)),
    (b"[J", None),
    (b"X", None),
    (b"I;", None),
];

fn wrong_number(set: &ClassSet) -> Option<usize> {
    NUMBERS
        .iter()
        .position(|(name, want)| set.class_named(name) != *want)
}

fn field_facts(found: Option<FieldAt>) -> Option<(u32, bool, u32, Kind)> {
    let field = found?;
    Some((field.class, field.is_static, field.at, field.kind))
}

/// A class, a field's name and descriptor, and what is found: the class, whether it is static, its slot or number, and its kind.
static FIELDS: [(u32, &[u8], &[u8], Option<(u32, bool, u32, Kind)>); 9] = [
    (0, b"a", b"[I", Some((0, false, 1, Kind::L))),
    (0, b"b", b"I", Some((1, false, 0, Kind::I))),
    // a superinterface's comes before the superclass's
    (0, b"s", b"I", Some((3, true, 3, Kind::I))),
    (1, b"s", b"I", Some((1, true, 1, Kind::I))),
    (0, b"r", b"LA;", Some((1, true, 2, Kind::L))),
    (
        28,
        b"out",
        b"Ljava/io/PrintStream;",
        Some((28, true, 0, Kind::L)),
    ),
    (
        30,
        b"message",
        b"Ljava/lang/String;",
        Some((30, false, 0, Kind::L)),
    ),
    (0, b"b", b"J", None),
    (33, b"b", b"I", None),
];

fn wrong_field(set: &ClassSet) -> Option<usize> {
    FIELDS.iter().position(|(class, name, descriptor, want)| field_facts(set.find_field(
        *class, name, descriptor,
    )) != *want)
}

fn method_facts(found: Option<MethodAt>) -> Option<(u32, u32, bool)> {
    let method = found?;
    Some((method.class, method.method, method.is_static))
}

/// A class, a method's name and descriptor, and what is found: the class, the method's number there, and whether it is static.
static METHODS: [(u32, &[u8], &[u8], Option<(u32, u32, bool)>); 10] = [
    (0, b"run", b"()V", Some((0, 0, false))),
    (1, b"run", b"()V", Some((1, 1, false))),
    (0, b"m", b"()V", Some((1, 0, false))),
    (
        0,
        b"equals",
        b"(Ljava/lang/Object;)Z",
        Some((OBJECT, 1, false)),
    ),
    (
        33,
        b"equals",
        b"(Ljava/lang/Object;)Z",
        Some((OBJECT, 1, false)),
    ),
    (4, b"end", b"()V", Some((4, 1, true))),
    (3, b"p", b"()V", Some((3, 0, false))),
    // superinterfaces aren't looked through
    (0, b"p", b"()V", None),
    (2, b"m", b"()V", None),
    (0, b"m", b"()I", None),
];

fn wrong_method(set: &ClassSet) -> Option<usize> {
    METHODS.iter().position(|(class, name, descriptor, want)| method_facts(set.find_method(
        *class, name, descriptor,
    )) != *want)
}

/// Whether one class or array type is a subtype of another, by their names.
fn is_below(set: &ClassSet, name: &[u8], above: &[u8]) -> Option<bool> {
    Some(set.is_sub(set.class_named(name)?, set.class_named(above)?))
}

/// Two names, and whether the first is a subtype of the second.
static SUBTYPES: [(&[u8], &[u8], bool); 18] = [
    (b"A", b"A", true),
    (b"A", b"I", true),
    (b"A", b"J", true),
    (b"B", b"J", false),
    (b"I", b"J", false),
    (b"I", b"java/lang/Object", true),
    (b"B", b"A", false),
    (b"[Ljava/lang/String;", b"[Ljava/lang/Object;", true),
    (b"[[I", b"[Ljava/lang/Object;", true),
    (b"[I", b"[Ljava/lang/Object;", false),
    (b"[Ljava/lang/Object;", b"[Ljava/lang/String;", false),
    (b"[I", b"java/lang/Cloneable", true),
    (b"[Ljava/lang/String;", b"java/lang/Cloneable", true),
    (b"[[I", b"java/io/Serializable", true),
    (b"[[I", b"[I", false),
    (b"[I", b"java/lang/Runnable", false),
    (b"[I", b"[S", false),
    (b"java/lang/Object", b"[I", false),
];

fn wrong_subtype(set: &ClassSet) -> Option<usize> {
    SUBTYPES.iter().position(|(name, above, want)| is_below(set, name, above) != Some(*want))
}

/// A class and an index of its pool, and the literal there. Two objects of three words stand before the first; two equal ones are one.
static LITERALS: [(u32, u32, Option<Ref>); 8] = [
    (0, 0, None),
    (0, 12, None),
    (0, 13, Some(Ref::Volatile(6))),
    (0, 15, Some(Ref::Volatile(12))),
    (1, 17, Some(Ref::Volatile(12))),
    (1, 16, None),
    (0, 70_000, None),
    (4, 1, None),
];

fn wrong_literal(set: &ClassSet) -> Option<usize> {
    LITERALS.iter().position(|(class, index, want)| set.literal(*class, *index) != *want)
}

/// Numbers of types, whether the code makes arrays of them, and whether they are interfaces.
static MADE: [(u32, bool, bool); 9] = [
    (0, false, false),
    (2, false, true),
    (23, false, true),
    (32, true, false),
    (33, true, false),
    (34, true, false),
    (35, true, false),
    (36, false, false),
    (38, false, false),
];

fn wrong_made(set: &ClassSet) -> Option<usize> {
    MADE.iter().position(|(number, made, interface)| set.makes(*number) != *made
        || set.is_interface(*number) != *interface)
}

/// A row that is wrong, with the name of its table.
fn wrong_row(set: &ClassSet) -> Option<(&'static str, usize)> {
    let rows = [
        ("numbers", wrong_number(set)),
        ("fields", wrong_field(set)),
        ("methods", wrong_method(set)),
        ("subtypes", wrong_subtype(set)),
        ("literals", wrong_literal(set)),
        ("made", wrong_made(set)),
    ];
    for (table, row) in &rows {
        if let Some(row) = row {
            return Some((*table, *row));
        }
    }
    None
}

fn wrong_row_of_linked(alloc: Global) -> Result<Option<(&'static str, usize)>, Fail> {
    let set = linked(alloc)?;
    Ok(wrong_row(&set))
}

#[test]
fn names_members_and_subtypes_are_found(rt: HostRuntime) -> Result<(), Fail> {
    let wrong = wrong_row_of_linked(rt.alloc())?;
    assert!(rt; wrong.is_none(), "{wrong:?}");
    Ok(())
}

/// The kinds of a shape's elements and fields, with their names; none past the last.
fn shape_text(alloc: Global, set: &ClassSet, number: u32) -> Result<String, Fail> {
    let Some(shape) = set.shape(number) else {
        return Ok(String::from_str(alloc, "none")?);
    };
    let mut text = format!(in alloc; "{:?}", shape.element)?;
    for field in shape.fields.as_slice() {
        let name = from_utf8(field.name.as_slice()).unwrap_or("no text");
        text.push_str(&format!(in alloc; " {name} {:?}", field.kind)?)?;
    }
    Ok(text)
}

/// Numbers, and their shapes: the fields of the superclass stand first.
static SHAPES: [(u32, &str); 7] = [
    (0, "None b I a L"),
    (1, "None b I"),
    (3, "None"),
    (25, "Some(C)"),
    (33, "Some(I)"),
    (37, "Some(L)"),
    (38, "none"),
];

fn wrong_shape(alloc: Global, set: &ClassSet) -> Result<Option<u32>, Fail> {
    for (number, want) in &SHAPES {
        if shape_text(alloc, set, *number)?.as_str() != *want {
            return Ok(Some(*number));
        }
    }
    Ok(None)
}

fn wrong_shape_of_linked(alloc: Global) -> Result<Option<u32>, Fail> {
    let set = linked(alloc)?;
    wrong_shape(alloc, &set)
}

#[test]
fn shapes_begin_with_the_superclass(rt: HostRuntime) -> Result<(), Fail> {
    let wrong = wrong_shape_of_linked(rt.alloc())?;
    assert!(rt; wrong.is_none(), "{wrong:?}");
    Ok(())
}

/// The names of the static fields and, of those that are durable roots, the numbers.
fn statics_text(alloc: Global, set: &ClassSet) -> Result<String, Fail> {
    let mut text = String::new(alloc);
    for field in set.statics() {
        let name = set.static_name(alloc, field)?;
        text.push_str(from_utf8(name.as_slice()).unwrap_or("no text"))?;
        text.push(' ')?;
    }
    for root in set.roots(alloc)?.as_slice() {
        text.push_str(&format!(in alloc; "{}", root.at)?)?;
    }
    Ok(text)
}

const KNOWN: Known = Known {
    chars: 32,
    string: 25,
    object: OBJECT,
    runnable: 23,
    builder: 26,
    thread: 29,
    throwable: 30,
};

/// Gives `[J` a number, and tells which one.
fn number_longs(alloc: Global, set: &mut ClassSet) -> Option<u32> {
    if set.number_array(alloc, b"[J").is_err() {
        return None;
    }
    set.class_named(b"[J")
}

/// The number that `[J` gets, and again, the kind of its elements, and whether it is an Object.
type Longs = (Option<u32>, Option<u32>, Option<Kind>, Option<bool>);

fn longs(alloc: Global, set: &mut ClassSet) -> Longs {
    let first = number_longs(alloc, set);
    let again = number_longs(alloc, set);
    (
        first,
        again,
        element_of(set, 38),
        is_below(set, b"[J", b"java/lang/Object"),
    )
}

fn element_of(set: &ClassSet, number: u32) -> Option<Kind> {
    set.shape(number)?.element
}

fn longs_of_linked(alloc: Global) -> Result<Longs, Fail> {
    let mut set = linked(alloc)?;
    Ok(longs(alloc, &mut set))
}

#[test]
fn arrays_get_numbers(rt: HostRuntime) -> Result<(), Fail> {
    let found = longs_of_linked(rt.alloc())?;
    let want = (Some(38), Some(38), Some(Kind::J), Some(true));
    assert!(rt; found == want, "{found:?}");
    Ok(())
}

fn statics_of_linked(alloc: Global) -> Result<(String, Known), Fail> {
    let set = linked(alloc)?;
    let known = set.known();
    match statics_text(alloc, &set) {
        Ok(text) => Ok((text, known)),
        Err(fail) => Err(fail),
    }
}

#[test]
fn statics_have_names(rt: HostRuntime) -> Result<(), Fail> {
    let (text, known) = statics_of_linked(rt.alloc())?;
    assert!(rt; text.as_str() == "B.s B.r J.s 2", "{text}");
    assert!(rt; known == KNOWN, "{known:?}");
    Ok(())
}
