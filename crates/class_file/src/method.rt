//! Methods (JVMS 4.6).

ghost use Rattle.std.specs.Prelude.{◌≡◌};
ghost use Rattle.std.specs.Option.{option_copied};
ghost use Rattle.class_file.specs.Members.{code_in};

use ap_base::ListOf;
use class_items::Attribute;
use code_attribute::Code;

/// An attribute of a method: its code, or one whose content is not looked into.
#[derive(Drop)]
pub enum MethodAttribute {
    /// The index of the name `Code`, and what the attribute has.
    Code { name: u16, code: Code },
    Other(Attribute),
}

/// A method of a class. Indices are those of the class's constant pool.
#[derive(Drop)]
pub struct Method {
    /// The access flags (JVMS table 4.6-A).
    pub access: u16,
    /// The index of the name.
    pub name: u16,
    /// The index of the descriptor.
    pub descriptor: u16,
    /// The attributes, in order.
    pub attributes: ListOf<MethodAttribute>,
}

fn code_in(attributes: &[MethodAttribute]) -> Option<&Code>
    ensures { option_copied result ≡ code_in attributes.now }
{
    for attribute in attributes {
        if let MethodAttribute::Code { code, .. } = attribute {
            return Some(code);
        }
    }
    None
}

impl Method {
    /// The code of the method, `None` exactly where it is abstract or native.
    pub fn code(&self) -> Option<&Code>
        ensures { option_copied result ≡ code_in self.now.attributes }
    {
        code_in(self.attributes.as_slice())
    }
}
