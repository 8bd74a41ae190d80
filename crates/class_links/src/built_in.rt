//! The classes that every class set has.

ghost use Rattle.std.specs.Prelude.{◌≡◌, map};
ghost use Rattle.std.specs.Option.{option_map};
ghost use Rattle.class_links.specs.Names.{built_in, find_known};
ghost use Rattle.class_links.specs.Found.{flags_of, known_row};

use crate::names::Flags;

/// A built-in class by its name.
struct BuiltIn {
    name: &'static [u8],
    flags: Flags,
}

const CLASS: Flags = Flags {
    is_interface: false,
    is_final: false,
};

const FINAL: Flags = Flags {
    is_interface: false,
    is_final: true,
};

const INTERFACE: Flags = Flags {
    is_interface: true,
    is_final: false,
};

const BUILT_IN: [BuiltIn; 28] = [
    BuiltIn {
        name: b"autopersist/Region",
        flags: FINAL,
    },
    BuiltIn {
        name: b"java/io/PrintStream",
        flags: CLASS,
    },
    BuiltIn {
        name: b"java/io/Serializable",
        flags: INTERFACE,
    },
    BuiltIn {
        name: b"java/lang/ArithmeticException",
        flags: CLASS,
    },
    BuiltIn {
        name: b"java/lang/ArrayIndexOutOfBoundsException",
        flags: CLASS,
    },
    BuiltIn {
        name: b"java/lang/ArrayStoreException",
        flags: CLASS,
    },
    BuiltIn {
        name: b"java/lang/ClassCastException",
        flags: CLASS,
    },
    BuiltIn {
        name: b"java/lang/Cloneable",
        flags: INTERFACE,
    },
    BuiltIn {
        name: b"java/lang/Error",
        flags: CLASS,
    },
    BuiltIn {
        name: b"java/lang/Exception",
        flags: CLASS,
    },
    BuiltIn {
        name: b"java/lang/IllegalArgumentException",
        flags: CLASS,
    },
    BuiltIn {
        name: b"java/lang/IllegalMonitorStateException",
        flags: CLASS,
    },
    BuiltIn {
        name: b"java/lang/IllegalStateException",
        flags: CLASS,
    },
    BuiltIn {
        name: b"java/lang/IllegalThreadStateException",
        flags: CLASS,
    },
    BuiltIn {
        name: b"java/lang/IndexOutOfBoundsException",
        flags: CLASS,
    },
    BuiltIn {
        name: b"java/lang/InterruptedException",
        flags: CLASS,
    },
    BuiltIn {
        name: b"java/lang/NegativeArraySizeException",
        flags: CLASS,
    },
    BuiltIn {
        name: b"java/lang/NullPointerException",
        flags: CLASS,
    },
    BuiltIn {
        name: b"java/lang/Object",
        flags: CLASS,
    },
    BuiltIn {
        name: b"java/lang/Runnable",
        flags: INTERFACE,
    },
    BuiltIn {
        name: b"java/lang/RuntimeException",
        flags: CLASS,
    },
    BuiltIn {
        name: b"java/lang/String",
        flags: FINAL,
    },
    BuiltIn {
        name: b"java/lang/StringBuilder",
        flags: FINAL,
    },
    BuiltIn {
        name: b"java/lang/StringIndexOutOfBoundsException",
        flags: CLASS,
    },
    BuiltIn {
        name: b"java/lang/System",
        flags: FINAL,
    },
    BuiltIn {
        name: b"java/lang/Thread",
        flags: CLASS,
    },
    BuiltIn {
        name: b"java/lang/Throwable",
        flags: CLASS,
    },
    BuiltIn {
        name: b"java/lang/UnsupportedOperationException",
        flags: CLASS,
    },
];

/// The table of the built-in classes.
fn built_in_classes() -> &'static [BuiltIn]
    ensures { map known_row result.now ≡ built_in }
{
    &BUILT_IN
}

/// The flags of the built-in class of this name, if there is one.
pub(crate) fn built_in(name: &[u8]) -> Option<Flags>
    ensures { result ≡ option_map flags_of (find_known built_in name.now) }
{
    for class in built_in_classes() {
        if class.name == name {
            return Some(class.flags);
        }
    }
    None
}
