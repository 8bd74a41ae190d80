// Small programs by computation: what they may do, and what they may not.
ghost use Rattle.std.specs.Prelude.{pos, negsuc, [], ◌∷◌};
ghost use Rattle.ap_base.specs.declared.kind.Kind.TheVariants.{Z, B, C, S};
ghost use Rattle.plain_model.specs.BuiltInRows.{BuiltInsAreClasses, BuiltInsAreThoseOfTheTable, BuiltInsOfSetsLink};
ghost use Rattle.plain_model.specs.BuiltInRows.{SupertypesAreFollowed};
ghost use Rattle.plain_model.specs.Consistent.{IsConsistent};
ghost use Rattle.plain_model.specs.First.{IsOpening};
ghost use Rattle.plain_model.specs.FirstRows.{FirstHeapHasConstants};
ghost use Rattle.plain_model.specs.Kinds.{IsOf};
ghost use Rattle.plain_model.specs.Rows.{nodes, null_root, one_node, Publishes, asked, joined, stored, fenced, left};
ghost use Rattle.plain_model.specs.Rows.{DoesInRegion, guarded, linked, closing, ended, Narrows, LoadsGiveWhatIsThere};
ghost use Rattle.plain_model.specs.Rows.{LeavesEither, LeavesTheNode};
ghost use Rattle.plain_model.specs.SubtypeRows.{AreHeld, AreSubtypes, ElementsHaveKinds, drawing, of_arrays, of_classes};
ghost use Rattle.plain_model.specs.SubtypeRows.{of_elements};
ghost use Rattle.graph_model.specs.declared.types.Value.TheVariants.{Null, Int as AnInt};

/// The names of the built-in classes ascend, each has the superclass, superinterfaces and fields of the
/// table, superclasses' fields stand first, and a few of them by their supertypes.
pub fn the_built_in_classes_are_classes()
    ensures classes { BuiltInsAreClasses }
    ensures table { BuiltInsAreThoseOfTheTable }
    ensures links { BuiltInsOfSetsLink }
    ensures supertypes { SupertypesAreFollowed }
{}

/// Which types are subtypes of which, and what an array may hold (JVMS 4.10.1.2).
pub fn subtypes_are_those_of_the_table()
    ensures set { IsConsistent drawing }
    ensures classes { AreSubtypes of_classes }
    ensures arrays { AreSubtypes of_arrays }
    ensures elements { AreHeld of_elements }
    ensures kinds { ElementsHaveKinds }
{}

/// The class set of these programs is one, and their graphs are opening graphs of it.
pub fn the_programs_are_sound()
    ensures set { IsConsistent nodes }
    ensures null_root { IsOpening nodes null_root }
    ensures one_node { IsOpening nodes (one_node Null) }
{}

/// The first heap of a set with constants and literals, from a graph with a root that the set lacks.
pub fn the_first_heap_has_the_constants()
    ensures { FirstHeapHasConstants }
{}

/// A new node is asked, joined, stored to the root and fenced, in this order.
pub fn a_node_is_published()
    ensures run { Publishes (asked ∷ joined (2 ∷ []) ∷ stored ∷ fenced ∷ left ∷ []) }
    ensures without_joined { Publishes (asked ∷ stored ∷ fenced ∷ left ∷ []) → ⊥ }
    ensures stored_first { Publishes (asked ∷ stored ∷ joined (2 ∷ []) ∷ fenced ∷ left ∷ []) → ⊥ }
    ensures without_fenced { Publishes (asked ∷ joined (2 ∷ []) ∷ stored ∷ left ∷ []) → ⊥ }
    ensures joined_nothing { Publishes (asked ∷ joined [] ∷ stored ∷ fenced ∷ left ∷ []) → ⊥ }
    ensures joined_unreached { Publishes (asked ∷ joined (2 ∷ 0 ∷ []) ∷ stored ∷ fenced ∷ left ∷ []) → ⊥ }
{}

/// A region guards a place before its store, and closes once its end is asked.
pub fn a_region_guards_and_closes()
    ensures run { DoesInRegion (guarded ∷ linked ∷ closing ∷ ended) }
    ensures without_closing { DoesInRegion (guarded ∷ linked ∷ ended) → ⊥ }
    ensures without_guarded { DoesInRegion (linked ∷ closing ∷ ended) → ⊥ }
    ensures closing_early { DoesInRegion (guarded ∷ closing ∷ linked ∷ ended) → ⊥ }
{}

/// A place keeps what its kind keeps (JVMS 2.11.1).
pub fn stores_are_narrowed()
    ensures byte { Narrows B (pos 300) (pos 44) }
    ensures short { Narrows S (pos 65535) (negsuc 0) }
    ensures boolean { Narrows Z (pos 2) (pos 0) }
    ensures char { Narrows C (negsuc 0) (pos 65535) }
{}

/// A load gives what is there: of a byte or a short that may be any int, as an image may have it; a boolean is 0 or 1,
/// and a char has 16 bits.
pub fn loads_narrow_nothing()
    ensures loads { LoadsGiveWhatIsThere }
    ensures byte { IsOf B (AnInt (pos 300)) }
    ensures short { IsOf S (AnInt (negsuc 65535)) }
    ensures boolean { IsOf Z (AnInt (pos 2)) → ⊥ }
    ensures char { IsOf C (AnInt (pos 65536)) → ⊥ }
{}

/// The published node may be lost until its store is fenced.
pub fn a_fence_keeps_the_published_node()
    ensures before { LeavesEither (asked ∷ joined (2 ∷ []) ∷ stored ∷ []) }
    ensures after { LeavesTheNode (asked ∷ joined (2 ∷ []) ∷ stored ∷ fenced ∷ []) }
{}
