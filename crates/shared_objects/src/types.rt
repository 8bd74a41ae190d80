// What steps ask of a class set.
ghost use Rattle.std.specs.Prelude.{◌≡◌, ◌<◌, ◌^◌, length};
ghost use Rattle.plain_model.specs.Facts.{SetFacts, class_at, classes_of, element_of, is_sub, known_classes, may_hold};
ghost use Rattle.plain_model.specs.Facts.{thrown_class};

use ap_base::Kind;
use plain_model::Throws;
use run_types::Known;

/// The classes and array types of a class set, by their numbers.
pub trait Types {
    /// What the set tells as plain data.
    ghost facts: { Self → SetFacts };

    /// The classes that the runtime knows.
    fn known(&self) -> Known
        ensures { result ≡ known_classes (facts self.now) };

    /// The class of a throwable that requests throw.
    fn thrown(&self, which: Throws) -> u32
        ensures { result ≡ thrown_class (facts self.now) which };

    /// The kind of the elements of a class's objects, if they have some.
    fn element(&self, class: u32) -> Option<Kind>
        requires there { class < length (classes_of (facts self.now)) }
        ensures { result ≡ element_of (facts self.now) class };

    /// How many fields a class's objects have.
    fn fields(&self, class: u32) -> u32
        requires there { class < length (classes_of (facts self.now)) }
        ensures count { result ≡ length (class_at (facts self.now) class).shape.fields }
        ensures few { result < 2 ^ 31 };

    /// Whether a class or an array type is a subtype of another (JVMS 4.10.1.2).
    fn is_sub(&self, class: u32, target: u32) -> bool
        requires there { class < length (classes_of (facts self.now)) }
        ensures { result ≡ is_sub (facts self.now) class target };

    /// Whether an array of a type may hold objects of a class (JVMS 6.5, aastore).
    fn may_hold(&self, array: u32, class: u32) -> bool
        requires there { array < length (classes_of (facts self.now)) }
        ensures { result ≡ may_hold (facts self.now) array class };
}
