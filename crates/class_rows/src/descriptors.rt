// Descriptors.
use const_pool::{BaseType, Descriptor, ElementType, FieldType, Name, read_descriptor};
use std::alloc::Global;
use std::test::Fail;

fn is_descriptor(alloc: Global, text: &[u8]) -> Result<bool, Fail> {
    let name = Name::new(text.to_vec(alloc)?).ok_or("a name")?;
    Ok(read_descriptor(alloc, &name).is_ok())
}

/// Texts that are descriptors, and texts that aren't.
static TEXTS: [(&str, bool); 2] = [
    (
        "I [[Z LA; [Ljava/lang/String; ()V (BCIJSZ)J ([[ILA;)[LA; (I)LA; L(V);",
        true,
    ),
    (
        "V F D [ [V II L; LA L/A; LA/; LA//B; LA.B; L[I; () (V)V (I ()VV ()VI Q ([)V",
        false,
    ),
];

#[test]
fn texts_are_descriptors_or_not(rt: HostRuntime) -> Result<(), Fail> {
    for (texts, good) in &TEXTS {
        for text in texts.split_whitespace() {
            assert!(rt;
                is_descriptor(rt.alloc(), text.as_bytes())? == *good,
                "{text}"
            );
        }
    }
    Ok(())
}

/// Whether an array type with so many dimensions of these elements is a descriptor.
fn is_array(alloc: Global, depth: usize, element: u8) -> Result<bool, Fail> {
    let mut text = Vec::from_elem(alloc, b'[', depth)?;
    text.push(element)?;
    is_descriptor(alloc, &text)
}

#[test]
fn arrays_have_at_most_255_dimensions(rt: HostRuntime) -> Result<(), Fail> {
    for (depth, element, good) in [
        (255, b'I', true),
        (256, b'I', false),
        (0, b'I', true),
        (0, b'F', false),
    ] {
        assert!(rt; is_array(rt.alloc(), depth, element)? == good, "{depth}");
    }
    Ok(())
}

#[test]
fn no_text_is_no_descriptor(rt: HostRuntime) -> Result<(), Fail> {
    assert!(rt; !is_descriptor(rt.alloc(), b"")?);
    Ok(())
}

/// Whether a type has so many dimensions of longs.
fn are_longs(field: &FieldType, dimensions: u8) -> bool {
    match field.element {
        ElementType::Base(BaseType::Long) => field.dimensions == dimensions,
        _ => false,
    }
}

/// Whether a type is this class.
fn is_class(field: &FieldType, name: &[u8]) -> bool {
    match &field.element {
        ElementType::Class(class) => field.dimensions == 0 && class.as_slice() == name,
        ElementType::Base(_) => false,
    }
}

#[test]
fn a_descriptor_has_its_parts(rt: HostRuntime) -> Result<(), Fail> {
    let name = Name::new(b"([[JLA/B;)V".to_vec(rt.alloc())?).ok_or("a name")?;
    let Descriptor::Method { parameters, result } = read_descriptor(rt.alloc(), &name)? else {
        return Err("a method".into());
    };
    let are_right = match parameters.as_slice() {
        [longs, class] => are_longs(longs, 2) && is_class(class, b"A/B"),
        _ => false,
    };
    let is_right = are_right && result.is_none();
    assert!(rt; is_right, "of the method");
    Ok(())
}
