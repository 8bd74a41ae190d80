// Laws and rows of class sets: each is the contract of a function that does nothing.
ghost use Rattle.plain_model.specs.SetRows.{ArraysAreRefused, ClassesAreRefused, KnownAreThere, StaticsAreRefused};
ghost use Rattle.plain_model.specs.SetLaws.{BuiltInsAreThere, DirectSupertypesAreAbove, GivenArraysAreThere};
ghost use Rattle.plain_model.specs.SetLaws.{SubtypesHaveFields, TypesAreTheirOwnSubtypes};

/// The classes and array types that the runtime itself knows have their numbers.
pub fn known_types_are_there()
    ensures built_ins { BuiltInsAreThere }
    ensures arrays { GivenArraysAreThere }
{}

/// Each type is a subtype of itself and of what stands directly above it, and a subtype of a class has the
/// class's fields at the same places (JVMS 4.10.1.2, 5.4.5).
pub fn subtypes_have_their_supertypes_fields()
    ensures own { TypesAreTheirOwnSubtypes }
    ensures direct { DirectSupertypesAreAbove }
    ensures fields { SubtypesHaveFields }
{}

/// A set with one fault isn't consistent, and of one without any the runtime knows the numbers.
pub fn consistent_sets_are_those_of_the_table()
    ensures classes { ClassesAreRefused }
    ensures arrays { ArraysAreRefused }
    ensures statics { StaticsAreRefused }
    ensures known { KnownAreThere }
{}
