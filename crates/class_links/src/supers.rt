//! What may be wrong with superclasses and superinterfaces.

ghost use Rattle.std.specs.Prelude.{◌≡◌, Some};
ghost use Rattle.std.specs.Option.{option_copied, option_map};
ghost use Rattle.class_links.specs.Names.{known_classes, interfaces_of};
ghost use Rattle.class_links.specs.Links.{first_name, first_with};

use crate::classes::Classes;
use crate::names::{class_name, name_of, super_of};
use class_file::ClassFile;

/// What may be wrong with a super that a class names.
#[derive(Clone, Copy)]
pub(crate) enum Fault {
    /// No class has this name.
    Missing,
    /// It is an interface.
    Interface,
    /// It is no interface.
    NoInterface,
    /// It is final.
    Final,
}

impl Classes<'_> {
    ghost use Rattle.class_links.specs.Rules.{has_fault, faulty_interface, faulty_super};

    /// Whether the class of this name has the fault.
    fn has_fault(&self, name: &[u8], fault: Fault) -> bool
        ensures { result ≡ has_fault (known_classes self.now) fault name.now }
    {
        match self.find(name) {
            None => matches!(fault, Fault::Missing),
            Some(flags) => match fault {
                Fault::Missing => false,
                Fault::Interface => flags.is_interface,
                Fault::NoInterface => !flags.is_interface,
                Fault::Final => flags.is_final,
            },
        }
    }

    /// The first superinterface with a fault.
    fn faulty_interface<'f>(&self, file: &'f ClassFile, fault: Fault) -> Option<&'f [u8]>
        ensures { option_copied result ≡ first_name (has_fault (known_classes self.now) fault) (interfaces_of file.now) }
    {
        for index in file.interfaces.as_slice() {
            let name = class_name(&file.pool, *index);
            if self.has_fault(name, fault) {
                return Some(name);
            }
        }
        None
    }

    /// The superclass, if it has one fault, or else the first superinterface with another.
    fn faulty_super<'f>(
        &self,
        file: &'f ClassFile,
        of_class: Fault,
        of_interface: Option<Fault>,
    ) -> Option<&'f [u8]>
        ensures { option_copied result ≡ faulty_super (known_classes self.now) of_class of_interface file.now }
    {
        let super_class = super_of(file);
        if self.has_fault(super_class, of_class) {
            return Some(super_class);
        }
        match of_interface {
            Some(fault) => self.faulty_interface(file, fault),
            None => None,
        }
    }

    /// The first class of which the superclass has one fault, or a superinterface another, and that super.
    pub(crate) fn first_faulty(
        &self,
        of_class: Fault,
        of_interface: Option<Fault>,
    ) -> Option<(&[u8], &[u8])>
        ensures { option_map (λ pair. (pair.0.now, pair.1.now)) result
            ≡ first_with (faulty_super (known_classes self.now) of_class of_interface) self.now }
    {
        for file in self.files() {
            if let Some(super_class) = self.faulty_super(file, of_class, of_interface) {
                return Some((name_of(file), super_class));
            }
        }
        None
    }
}
