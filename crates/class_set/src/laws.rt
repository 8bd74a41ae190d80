//! What class files that link keep.

ghost use Rattle.std.specs.Prelude.{◌≡◌, ◌≢◌, ◌<◌, ◌↔◌, ◌+◌, ℕ, true, false, drop, length, sum_by, take, List, Some, All};
ghost use Rattle.std.specs.Prelude.{AllPairs, Contains};
ghost use Rattle.class_file.specs.Classes.{CanBeRead};
ghost use Rattle.class_file.specs.declared.class.ClassFile.{ClassFile};
ghost use Rattle.class_links.specs.Links.{Links};
ghost use Rattle.plain_model.specs.Classes.{ArrayType, ClassFacts};
ghost use Rattle.plain_model.specs.BuiltIn.{arguments_array, chars_array};
ghost use Rattle.plain_model.specs.Facts.{StaticFacts, class_at, class_count, classes_of, is_subclass};
ghost use Rattle.plain_model.specs.Consistent.{IsArrayType, IsComplete, IsConsistent, IsFieldKind, IsProgramClass, supers_of};
ghost use Rattle.graph_walks.specs.Circles.{HasNoCircle};
ghost use Rattle.image_meaning.specs.Entries.{AreBytes, IsShape};
ghost use Rattle.class_set.specs.Linked.{Linked, with_array};
ghost use Rattle.class_set.specs.Facts.{facts_of, named_classes};
ghost use Rattle.run_types.specs.declared.resolved.FieldAt.{FieldAt};
ghost use Rattle.class_set.specs.Members.{kind_of};
ghost use Rattle.class_set.specs.Lookups.{class_edges, find_field};
ghost use Rattle.graph_model.specs.declared.types.Graph.{Graph};
ghost use Rattle.plain_model.specs.First.{first_objects};
ghost use Rattle.class_set.specs.Literals.{texts_of, words_before, words_of_object};
ghost use Rattle.class_set.specs.Rows.{SmallSetIsLookedUp};
ghost use Rattle.class_set.specs.LinkedRows.{FilesAreLinked};
ghost use Rattle.class_set.specs.ArrayTypes.{is_array_type, linked_from, makes};
ghost use Rattle.class_set.specs.FoundFields.{IsFieldFound};
ghost use Rattle.class_set.specs.Sets.{IsLinked, made_of};
ghost use Rattle.class_set.specs.Tables.{array_shape};

/// Where class files link, no class, the built-in ones included, is its own superclass or
/// superinterface, directly or not.
pub fn no_class_is_above_itself()
    ensures { (files : List ClassFile) → Links files → HasNoCircle (class_edges files) }
{}

/// Where class files that can be read link, no two of their classes, the built-in ones and the
/// array types have the same name.
pub fn names_of_linked_classes_differ()
    ensures { (files : List ClassFile) → All CanBeRead files → Links files
        → AllPairs
        (λ (c d : ClassFacts). c.shape.name ≢ d.shape.name) (classes_of (facts_of (linked_from files))) }
{}

/// The numbers, layouts, fields, methods and subtypes of a small class set are those that were
/// worked out by hand.
pub fn a_small_set_is_looked_up()
    ensures { SmallSetIsLookedUp }
{}

/// Where class files link, each class of the program is one that links, no class above another is
/// its subclass, each array type is what its descriptor says, and what the runtime names itself is
/// there: the arrays of chars and of Strings, and the literals that are constants. Where they can
/// also be read, the set is consistent as a whole.
pub fn linked_classes_are_consistent()
    ensures classes { (files : List ClassFile) → Links files
        → All (IsProgramClass (facts_of (linked_from files))) (facts_of (linked_from files)).program }
    ensures no_circle { (files : List ClassFile) (n : ℕ) → Links files
        → n < class_count (facts_of (linked_from files))
        → All (λ above. is_subclass (facts_of (linked_from files)) above n
        ≡ false) (supers_of (class_at (facts_of (linked_from files)) n)) }
    ensures arrays { (files : List ClassFile)
        → All (IsArrayType (facts_of (linked_from files))) (facts_of (linked_from files)).arrays }
    ensures kinds { (files : List ClassFile)
        → All (λ (s : StaticFacts). IsFieldKind s.kind) (facts_of (linked_from files)).statics }
    ensures complete { (files : List ClassFile) → Links files
        → IsComplete (facts_of (linked_from files)) }
    ensures consistent { (files : List ClassFile) → All CanBeRead files → Links files
        → IsConsistent (facts_of (linked_from files)) }
{}

/// What files that can be read and link give is linked, it stays so where an array type gets a
/// number, and a linked set is consistent as a whole.
pub fn linked_sets_are_consistent()
    ensures linked { (files : List ClassFile) → All CanBeRead files → Links files
        → IsLinked (linked_from files) }
    ensures with_array { (set : Linked) (text : List ℕ) → IsLinked set → is_array_type text ≡ true
        → IsLinked (with_array set text) }
    ensures consistent { (set : Linked) → IsLinked set → IsConsistent (facts_of set) }
{}

/// An image can have the shapes of a linked set's classes and of the array types that its code
/// makes, and the names of its static fields.
pub fn shapes_can_be_written()
    ensures classes { (set : Linked) → IsLinked set
        → All (λ (c : ClassFacts). IsShape c.shape) (named_classes set.files) }
    ensures arrays { (set : Linked) → IsLinked set
        → All (λ (a : ArrayType). Contains (made_of set) a.descriptor → IsShape (array_shape a)) (facts_of set).arrays }
    ensures names { (set : Linked) → IsLinked set
        → All (λ (s : StaticFacts). AreBytes s.name) (facts_of set).statics }
{}

/// No two durable roots of a linked set have one name. A root's name is its class's with a dot and the
/// field's behind it; no name of a class has a dot (JVMS 4.2.1), and no class file has two durable roots
/// of one name.
pub fn roots_of_linked_sets_differ()
    ensures { (set : Linked) → IsLinked set → AllPairs
        (λ (s t : StaticFacts). s.is_root ≡ true → t.is_root ≡ true → s.name ≢ t.name)
        (facts_of set).statics }
{}

/// Among the array types that the code of a linked set makes are always those of chars and of
/// Strings. The set has each of them, and a type is made where its descriptor is among them.
pub fn made_arrays_are_known()
    ensures chars { (set : Linked) → Contains (made_of set) chars_array.descriptor }
    ensures arguments { (set : Linked)
        → Contains (made_of set) (arguments_array (length set.files)).descriptor }
    ensures known { (set : Linked) (text : List ℕ) → IsLinked set → Contains (made_of set) text
        → (a : ArrayType) × Contains (facts_of set).arrays a × (a.descriptor ≡ text) }
    ensures makes { (set : Linked) (n : ℕ) → n < length (classes_of (facts_of set))
        → (makes set n ≡ true) ↔ Contains (made_of set) (class_at (facts_of set) n).shape.name }
{}

/// The slot that is found for an instance field is that of the field with this name and kind in its
/// class's shape, and the number that is found for a static one that of the static field of this
/// class, name and kind.
pub fn found_fields_are_where_they_say()
    ensures { (set : Linked) (class : ℕ) (name descriptor : List ℕ) (field : FieldAt)
        → find_field set class name descriptor ≡ Some field
        → (field.kind ≡ kind_of descriptor) × IsFieldFound (facts_of set) name field }
{}

/// Before a literal stand as many words as all objects of the plain first heap take that are no
/// nodes and come before it.
pub fn literals_follow_the_first_objects()
    ensures { (set : Linked) (opening : Graph) (place : ℕ) → words_before (texts_of set.files) place
        ≡ sum_by words_of_object (take (2 + place) (drop (length opening.nodes) (first_objects (facts_of set) opening))) }
{}

/// The array types, literals, constants and roots of two small files, and the kinds of their
/// fields, are those that were worked out by hand.
pub fn two_small_files_are_linked()
    ensures { FilesAreLinked }
{}
