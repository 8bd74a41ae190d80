//! The table of the built-in classes.

ghost use Rattle.std.specs.Prelude.{◌≡◌, ℕ, map};
ghost use Rattle.plain_model.specs.Classes.{ClassFacts};
ghost use Rattle.plain_model.specs.BuiltIn.{built_in_classes as built_in_facts};
ghost use Rattle.built_in_table.specs.declared.built_in.BuiltIn.{BuiltIn as Row};
ghost use Rattle.built_in_table.specs.Members.{built_in_members, built_in_names, built_in_supers, built_in_interfaces};
ghost use Rattle.built_in_table.specs.Rows.{row_interfaces, row_members, row_name, row_shape, row_super};

use ap_base::Kind;

/// A field or a method that a built-in class declares.
pub struct Member {
    pub name: &'static [u8],
    pub descriptor: &'static [u8],
    pub is_static: bool,
}

/// An instance field: a slot of an object.
#[derive(Clone, Copy)]
pub struct Slot {
    pub name: &'static [u8],
    pub kind: Kind,
}

/// A built-in class.
pub struct BuiltIn {
    pub name: &'static [u8],
    /// The place of its superclass among the built-in classes, which Object alone lacks.
    pub superclass: Option<u8>,
    /// The places of its superinterfaces, in order.
    pub interfaces: &'static [u8],
    pub is_interface: bool,
    /// The slots of its objects, those of its superclasses among them.
    pub layout: &'static [Slot],
    /// The kind of its elements, which String alone has.
    pub element: Option<Kind>,
    /// The fields that it declares itself.
    pub fields: &'static [Member],
    /// A method's number is its place here.
    pub methods: &'static [Member],
}

const MESSAGE: Slot = Slot {
    name: b"message",
    kind: Kind::L,
};

const VALUE: Slot = Slot {
    name: b"value",
    kind: Kind::L,
};

const COUNT: Slot = Slot {
    name: b"count",
    kind: Kind::I,
};

const TARGET: Slot = Slot {
    name: b"target",
    kind: Kind::L,
};

const BUILT_IN: [BuiltIn; 28] = [
    BuiltIn {
        name: b"autopersist/Region",
        superclass: Some(18),
        interfaces: &[],
        is_interface: false,
        layout: &[],
        element: None,
        fields: &[],
        methods: &[
            Member {
                name: b"begin",
                descriptor: b"()V",
                is_static: true,
            },
            Member {
                name: b"end",
                descriptor: b"()V",
                is_static: true,
            },
        ],
    },
    BuiltIn {
        name: b"java/io/PrintStream",
        superclass: Some(18),
        interfaces: &[],
        is_interface: false,
        layout: &[],
        element: None,
        fields: &[],
        methods: &[
            Member {
                name: b"print",
                descriptor: b"(I)V",
                is_static: false,
            },
            Member {
                name: b"print",
                descriptor: b"(J)V",
                is_static: false,
            },
            Member {
                name: b"print",
                descriptor: b"(C)V",
                is_static: false,
            },
            Member {
                name: b"print",
                descriptor: b"(Z)V",
                is_static: false,
            },
            Member {
                name: b"print",
                descriptor: b"(Ljava/lang/String;)V",
                is_static: false,
            },
            Member {
                name: b"print",
                descriptor: b"(Ljava/lang/Object;)V",
                is_static: false,
            },
            Member {
                name: b"println",
                descriptor: b"(I)V",
                is_static: false,
            },
            Member {
                name: b"println",
                descriptor: b"(J)V",
                is_static: false,
            },
            Member {
                name: b"println",
                descriptor: b"(C)V",
                is_static: false,
            },
            Member {
                name: b"println",
                descriptor: b"(Z)V",
                is_static: false,
            },
            Member {
                name: b"println",
                descriptor: b"(Ljava/lang/String;)V",
                is_static: false,
            },
            Member {
                name: b"println",
                descriptor: b"(Ljava/lang/Object;)V",
                is_static: false,
            },
            Member {
                name: b"println",
                descriptor: b"()V",
                is_static: false,
            },
        ],
    },
    BuiltIn {
        name: b"java/io/Serializable",
        superclass: Some(18),
        interfaces: &[],
        is_interface: true,
        layout: &[],
        element: None,
        fields: &[],
        methods: &[],
    },
    BuiltIn {
        name: b"java/lang/ArithmeticException",
        superclass: Some(20),
        interfaces: &[],
        is_interface: false,
        layout: &[MESSAGE],
        element: None,
        fields: &[],
        methods: &[
            Member {
                name: b"<init>",
                descriptor: b"()V",
                is_static: false,
            },
            Member {
                name: b"<init>",
                descriptor: b"(Ljava/lang/String;)V",
                is_static: false,
            },
        ],
    },
    BuiltIn {
        name: b"java/lang/ArrayIndexOutOfBoundsException",
        superclass: Some(14),
        interfaces: &[],
        is_interface: false,
        layout: &[MESSAGE],
        element: None,
        fields: &[],
        methods: &[
            Member {
                name: b"<init>",
                descriptor: b"()V",
                is_static: false,
            },
            Member {
                name: b"<init>",
                descriptor: b"(Ljava/lang/String;)V",
                is_static: false,
            },
        ],
    },
    BuiltIn {
        name: b"java/lang/ArrayStoreException",
        superclass: Some(20),
        interfaces: &[],
        is_interface: false,
        layout: &[MESSAGE],
        element: None,
        fields: &[],
        methods: &[
            Member {
                name: b"<init>",
                descriptor: b"()V",
                is_static: false,
            },
            Member {
                name: b"<init>",
                descriptor: b"(Ljava/lang/String;)V",
                is_static: false,
            },
        ],
    },
    BuiltIn {
        name: b"java/lang/ClassCastException",
        superclass: Some(20),
        interfaces: &[],
        is_interface: false,
        layout: &[MESSAGE],
        element: None,
        fields: &[],
        methods: &[
            Member {
                name: b"<init>",
                descriptor: b"()V",
                is_static: false,
            },
            Member {
                name: b"<init>",
                descriptor: b"(Ljava/lang/String;)V",
                is_static: false,
            },
        ],
    },
    BuiltIn {
        name: b"java/lang/Cloneable",
        superclass: Some(18),
        interfaces: &[],
        is_interface: true,
        layout: &[],
        element: None,
        fields: &[],
        methods: &[],
    },
    BuiltIn {
        name: b"java/lang/Error",
        superclass: Some(26),
        interfaces: &[],
        is_interface: false,
        layout: &[MESSAGE],
        element: None,
        fields: &[],
        methods: &[
            Member {
                name: b"<init>",
                descriptor: b"()V",
                is_static: false,
            },
            Member {
                name: b"<init>",
                descriptor: b"(Ljava/lang/String;)V",
                is_static: false,
            },
        ],
    },
    BuiltIn {
        name: b"java/lang/Exception",
        superclass: Some(26),
        interfaces: &[],
        is_interface: false,
        layout: &[MESSAGE],
        element: None,
        fields: &[],
        methods: &[
            Member {
                name: b"<init>",
                descriptor: b"()V",
                is_static: false,
            },
            Member {
                name: b"<init>",
                descriptor: b"(Ljava/lang/String;)V",
                is_static: false,
            },
        ],
    },
    BuiltIn {
        name: b"java/lang/IllegalArgumentException",
        superclass: Some(20),
        interfaces: &[],
        is_interface: false,
        layout: &[MESSAGE],
        element: None,
        fields: &[],
        methods: &[
            Member {
                name: b"<init>",
                descriptor: b"()V",
                is_static: false,
            },
            Member {
                name: b"<init>",
                descriptor: b"(Ljava/lang/String;)V",
                is_static: false,
            },
        ],
    },
    BuiltIn {
        name: b"java/lang/IllegalMonitorStateException",
        superclass: Some(20),
        interfaces: &[],
        is_interface: false,
        layout: &[MESSAGE],
        element: None,
        fields: &[],
        methods: &[
            Member {
                name: b"<init>",
                descriptor: b"()V",
                is_static: false,
            },
            Member {
                name: b"<init>",
                descriptor: b"(Ljava/lang/String;)V",
                is_static: false,
            },
        ],
    },
    BuiltIn {
        name: b"java/lang/IllegalStateException",
        superclass: Some(20),
        interfaces: &[],
        is_interface: false,
        layout: &[MESSAGE],
        element: None,
        fields: &[],
        methods: &[
            Member {
                name: b"<init>",
                descriptor: b"()V",
                is_static: false,
            },
            Member {
                name: b"<init>",
                descriptor: b"(Ljava/lang/String;)V",
                is_static: false,
            },
        ],
    },
    BuiltIn {
        name: b"java/lang/IllegalThreadStateException",
        superclass: Some(10),
        interfaces: &[],
        is_interface: false,
        layout: &[MESSAGE],
        element: None,
        fields: &[],
        methods: &[
            Member {
                name: b"<init>",
                descriptor: b"()V",
                is_static: false,
            },
            Member {
                name: b"<init>",
                descriptor: b"(Ljava/lang/String;)V",
                is_static: false,
            },
        ],
    },
    BuiltIn {
        name: b"java/lang/IndexOutOfBoundsException",
        superclass: Some(20),
        interfaces: &[],
        is_interface: false,
        layout: &[MESSAGE],
        element: None,
        fields: &[],
        methods: &[
            Member {
                name: b"<init>",
                descriptor: b"()V",
                is_static: false,
            },
            Member {
                name: b"<init>",
                descriptor: b"(Ljava/lang/String;)V",
                is_static: false,
            },
        ],
    },
    BuiltIn {
        name: b"java/lang/InterruptedException",
        superclass: Some(9),
        interfaces: &[],
        is_interface: false,
        layout: &[MESSAGE],
        element: None,
        fields: &[],
        methods: &[
            Member {
                name: b"<init>",
                descriptor: b"()V",
                is_static: false,
            },
            Member {
                name: b"<init>",
                descriptor: b"(Ljava/lang/String;)V",
                is_static: false,
            },
        ],
    },
    BuiltIn {
        name: b"java/lang/NegativeArraySizeException",
        superclass: Some(20),
        interfaces: &[],
        is_interface: false,
        layout: &[MESSAGE],
        element: None,
        fields: &[],
        methods: &[
            Member {
                name: b"<init>",
                descriptor: b"()V",
                is_static: false,
            },
            Member {
                name: b"<init>",
                descriptor: b"(Ljava/lang/String;)V",
                is_static: false,
            },
        ],
    },
    BuiltIn {
        name: b"java/lang/NullPointerException",
        superclass: Some(20),
        interfaces: &[],
        is_interface: false,
        layout: &[MESSAGE],
        element: None,
        fields: &[],
        methods: &[
            Member {
                name: b"<init>",
                descriptor: b"()V",
                is_static: false,
            },
            Member {
                name: b"<init>",
                descriptor: b"(Ljava/lang/String;)V",
                is_static: false,
            },
        ],
    },
    BuiltIn {
        name: b"java/lang/Object",
        superclass: None,
        interfaces: &[],
        is_interface: false,
        layout: &[],
        element: None,
        fields: &[],
        methods: &[
            Member {
                name: b"<init>",
                descriptor: b"()V",
                is_static: false,
            },
            Member {
                name: b"equals",
                descriptor: b"(Ljava/lang/Object;)Z",
                is_static: false,
            },
        ],
    },
    BuiltIn {
        name: b"java/lang/Runnable",
        superclass: Some(18),
        interfaces: &[],
        is_interface: true,
        layout: &[],
        element: None,
        fields: &[],
        methods: &[Member {
            name: b"run",
            descriptor: b"()V",
            is_static: false,
        }],
    },
    BuiltIn {
        name: b"java/lang/RuntimeException",
        superclass: Some(9),
        interfaces: &[],
        is_interface: false,
        layout: &[MESSAGE],
        element: None,
        fields: &[],
        methods: &[
            Member {
                name: b"<init>",
                descriptor: b"()V",
                is_static: false,
            },
            Member {
                name: b"<init>",
                descriptor: b"(Ljava/lang/String;)V",
                is_static: false,
            },
        ],
    },
    BuiltIn {
        name: b"java/lang/String",
        superclass: Some(18),
        interfaces: &[2],
        is_interface: false,
        layout: &[],
        element: Some(Kind::C),
        fields: &[],
        methods: &[
            Member {
                name: b"length",
                descriptor: b"()I",
                is_static: false,
            },
            Member {
                name: b"charAt",
                descriptor: b"(I)C",
                is_static: false,
            },
            Member {
                name: b"equals",
                descriptor: b"(Ljava/lang/Object;)Z",
                is_static: false,
            },
        ],
    },
    BuiltIn {
        name: b"java/lang/StringBuilder",
        superclass: Some(18),
        interfaces: &[2],
        is_interface: false,
        layout: &[VALUE, COUNT],
        element: None,
        fields: &[
            Member {
                name: b"value",
                descriptor: b"[C",
                is_static: false,
            },
            Member {
                name: b"count",
                descriptor: b"I",
                is_static: false,
            },
        ],
        methods: &[
            Member {
                name: b"<init>",
                descriptor: b"()V",
                is_static: false,
            },
            Member {
                name: b"<init>",
                descriptor: b"(Ljava/lang/String;)V",
                is_static: false,
            },
            Member {
                name: b"append",
                descriptor: b"(I)Ljava/lang/StringBuilder;",
                is_static: false,
            },
            Member {
                name: b"append",
                descriptor: b"(J)Ljava/lang/StringBuilder;",
                is_static: false,
            },
            Member {
                name: b"append",
                descriptor: b"(C)Ljava/lang/StringBuilder;",
                is_static: false,
            },
            Member {
                name: b"append",
                descriptor: b"(Z)Ljava/lang/StringBuilder;",
                is_static: false,
            },
            Member {
                name: b"append",
                descriptor: b"(Ljava/lang/String;)Ljava/lang/StringBuilder;",
                is_static: false,
            },
            Member {
                name: b"append",
                descriptor: b"(Ljava/lang/Object;)Ljava/lang/StringBuilder;",
                is_static: false,
            },
            Member {
                name: b"toString",
                descriptor: b"()Ljava/lang/String;",
                is_static: false,
            },
        ],
    },
    BuiltIn {
        name: b"java/lang/StringIndexOutOfBoundsException",
        superclass: Some(14),
        interfaces: &[],
        is_interface: false,
        layout: &[MESSAGE],
        element: None,
        fields: &[],
        methods: &[
            Member {
                name: b"<init>",
                descriptor: b"()V",
                is_static: false,
            },
            Member {
                name: b"<init>",
                descriptor: b"(Ljava/lang/String;)V",
                is_static: false,
            },
        ],
    },
    BuiltIn {
        name: b"java/lang/System",
        superclass: Some(18),
        interfaces: &[],
        is_interface: false,
        layout: &[],
        element: None,
        fields: &[Member {
            name: b"out",
            descriptor: b"Ljava/io/PrintStream;",
            is_static: true,
        }],
        methods: &[],
    },
    BuiltIn {
        name: b"java/lang/Thread",
        superclass: Some(18),
        interfaces: &[19],
        is_interface: false,
        layout: &[TARGET],
        element: None,
        fields: &[Member {
            name: b"target",
            descriptor: b"Ljava/lang/Runnable;",
            is_static: false,
        }],
        methods: &[
            Member {
                name: b"<init>",
                descriptor: b"()V",
                is_static: false,
            },
            Member {
                name: b"<init>",
                descriptor: b"(Ljava/lang/Runnable;)V",
                is_static: false,
            },
            Member {
                name: b"start",
                descriptor: b"()V",
                is_static: false,
            },
            Member {
                name: b"run",
                descriptor: b"()V",
                is_static: false,
            },
            Member {
                name: b"join",
                descriptor: b"()V",
                is_static: false,
            },
        ],
    },
    BuiltIn {
        name: b"java/lang/Throwable",
        superclass: Some(18),
        interfaces: &[2],
        is_interface: false,
        layout: &[MESSAGE],
        element: None,
        fields: &[Member {
            name: b"message",
            descriptor: b"Ljava/lang/String;",
            is_static: false,
        }],
        methods: &[
            Member {
                name: b"<init>",
                descriptor: b"()V",
                is_static: false,
            },
            Member {
                name: b"<init>",
                descriptor: b"(Ljava/lang/String;)V",
                is_static: false,
            },
            Member {
                name: b"getMessage",
                descriptor: b"()Ljava/lang/String;",
                is_static: false,
            },
        ],
    },
    BuiltIn {
        name: b"java/lang/UnsupportedOperationException",
        superclass: Some(20),
        interfaces: &[],
        is_interface: false,
        layout: &[MESSAGE],
        element: None,
        fields: &[],
        methods: &[
            Member {
                name: b"<init>",
                descriptor: b"()V",
                is_static: false,
            },
            Member {
                name: b"<init>",
                descriptor: b"(Ljava/lang/String;)V",
                is_static: false,
            },
        ],
    },
];

/// The built-in classes, in the order of their numbers.
pub fn built_in_classes() -> &'static [BuiltIn]
    ensures names { map row_name result.now ≡ built_in_names }
    ensures supers { (first : ℕ) → map (row_super first) result.now ≡ built_in_supers first }
    ensures interfaces { (first : ℕ) → map (row_interfaces first) result.now ≡ built_in_interfaces first }
    ensures kinds { map (λ (row : Row). row.is_interface) result.now ≡ map (λ (c : ClassFacts). c.is_interface) (built_in_facts 0) }
    ensures shapes { map row_shape result.now ≡ map (λ (c : ClassFacts). c.shape) (built_in_facts 0) }
    ensures members { map row_members result.now ≡ built_in_members }
{
    &BUILT_IN
}
