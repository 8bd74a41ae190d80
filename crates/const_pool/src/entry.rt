//! The entries of a constant pool (JVMS 4.4).

ghost use Rattle.std.specs.Prelude.{◌≡◌};
ghost use Rattle.const_pool.specs.Entry.{tag_of, tag_with, is_wide};

use crate::Name;

/// The kinds of entries, with their tags (JVMS 4.4, table 4.4-A).
#[derive(Clone, Copy, Debug, PartialEq, Eq)]
pub enum Tag {
    /// A text (JVMS 4.4.7).
    Utf8 = 1,
    /// An `int` (JVMS 4.4.4).
    Integer = 3,
    /// A `float` (JVMS 4.4.4).
    Float = 4,
    /// A `long` (JVMS 4.4.5).
    Long = 5,
    /// A `double` (JVMS 4.4.5).
    Double = 6,
    /// A class or interface (JVMS 4.4.1).
    Class = 7,
    /// A string (JVMS 4.4.3).
    String = 8,
    /// A field (JVMS 4.4.2).
    Fieldref = 9,
    /// A method of a class (JVMS 4.4.2).
    Methodref = 10,
    /// A method of an interface (JVMS 4.4.2).
    InterfaceMethodref = 11,
    /// A name and a descriptor (JVMS 4.4.6).
    NameAndType = 12,
    /// A method handle (JVMS 4.4.8).
    MethodHandle = 15,
    /// A method type (JVMS 4.4.9).
    MethodType = 16,
    /// A dynamic call site (JVMS 4.4.10).
    InvokeDynamic = 18,
}

impl Tag {
    /// The kind with this tag, `None` exactly where no kind has it.
    pub fn with_byte(byte: u8) -> Option<Tag>
        ensures { result ≡ tag_with byte }
    {
        match byte {
            1 => Some(Tag::Utf8),
            3 => Some(Tag::Integer),
            4 => Some(Tag::Float),
            5 => Some(Tag::Long),
            6 => Some(Tag::Double),
            7 => Some(Tag::Class),
            8 => Some(Tag::String),
            9 => Some(Tag::Fieldref),
            10 => Some(Tag::Methodref),
            11 => Some(Tag::InterfaceMethodref),
            12 => Some(Tag::NameAndType),
            15 => Some(Tag::MethodHandle),
            16 => Some(Tag::MethodType),
            18 => Some(Tag::InvokeDynamic),
            _ => None,
        }
    }

    /// Whether an entry of this kind takes two indices (JVMS 4.4.5).
    pub fn is_wide(self) -> bool
        ensures { result ≡ is_wide self }
    {
        matches!(self, Tag::Long | Tag::Double)
    }
}

/// A field or method that an entry names: indices of a class and of a name and type (JVMS 4.4.2).
#[derive(Clone, Copy, Debug, PartialEq, Eq)]
pub struct Member {
    /// The index of a Class entry.
    pub class: u16,
    /// The index of a NameAndType entry.
    pub name_and_type: u16,
}

/// An entry of a constant pool. Its numbers of 16 bits are indices of other entries.
#[derive(Drop)]
pub enum Entry {
    /// A text (JVMS 4.4.7).
    Utf8(Name),
    /// An `int` (JVMS 4.4.4).
    Integer(i32),
    /// The bits of a `float` (JVMS 4.4.4).
    Float(u32),
    /// A `long`, which takes two indices (JVMS 4.4.5).
    Long(i64),
    /// The bits of a `double`, which takes two indices (JVMS 4.4.5).
    Double(u64),
    /// A class or interface, by a text (JVMS 4.4.1).
    Class { name: u16 },
    /// A string, by a text (JVMS 4.4.3).
    String { text: u16 },
    /// A field (JVMS 4.4.2).
    Fieldref(Member),
    /// A method of a class (JVMS 4.4.2).
    Methodref(Member),
    /// A method of an interface (JVMS 4.4.2).
    InterfaceMethodref(Member),
    /// A name and a descriptor, by two texts (JVMS 4.4.6).
    NameAndType { name: u16, descriptor: u16 },
    /// A method handle, its bytes unread (JVMS 4.4.8).
    MethodHandle([u8; 3]),
    /// A method type, its bytes unread (JVMS 4.4.9).
    MethodType([u8; 2]),
    /// A dynamic call site, its bytes unread (JVMS 4.4.10).
    InvokeDynamic([u8; 4]),
}

impl Entry {
    /// The entry's kind.
    pub fn tag(&self) -> Tag
        ensures { result ≡ tag_of self.now }
    {
        match self {
            Entry::Utf8(_) => Tag::Utf8,
            Entry::Integer(_) => Tag::Integer,
            Entry::Float(_) => Tag::Float,
            Entry::Long(_) => Tag::Long,
            Entry::Double(_) => Tag::Double,
            Entry::Class { .. } => Tag::Class,
            Entry::String { .. } => Tag::String,
            Entry::Fieldref(_) => Tag::Fieldref,
            Entry::Methodref(_) => Tag::Methodref,
            Entry::InterfaceMethodref(_) => Tag::InterfaceMethodref,
            Entry::NameAndType { .. } => Tag::NameAndType,
            Entry::MethodHandle(_) => Tag::MethodHandle,
            Entry::MethodType(_) => Tag::MethodType,
            Entry::InvokeDynamic(_) => Tag::InvokeDynamic,
        }
    }
}
