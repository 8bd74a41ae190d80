// What instructions name once it is resolved, and where they stand.

use ap_base::Kind;

/// The instruction that asks: class and method by number, and the offset of its opcode. In a native method `pc` is 0.
#[derive(Clone, Copy, Debug, PartialEq, Eq)]
pub struct At {
    pub class: u32,
    pub method: u32,
    pub pc: u32,
}

/// A resolved field (JVMS 5.4.3.2): the class that declares it, its slot or its static's number, and its kind.
#[derive(Clone, Copy, Debug, PartialEq, Eq)]
pub struct FieldAt {
    pub class: u32,
    pub is_static: bool,
    pub at: u32,
    pub kind: Kind,
}

/// A resolved method (JVMS 5.4.3.3): the class that declares it, and its number there.
#[derive(Clone, Copy, Debug, PartialEq, Eq)]
pub struct MethodAt {
    pub class: u32,
    pub method: u32,
    pub is_static: bool,
}
