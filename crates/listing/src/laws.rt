//! Laws of listings, by computation. Each function states some in its contract, and does nothing.

ghost use Rattle.std.specs.Prelude.{◌≡◌, ◌∷◌, [], Ok, true, false, pos, negsuc};
ghost use Rattle.listing_lines.specs.Lines.{listing_lines};
ghost use Rattle.listing.specs.Code.{is_near};
ghost use Rattle.listing.specs.Members.{root_bytes};
ghost use Rattle.listing.specs.Classes.{judged};
ghost use Rattle.listing.specs.Rows.{text, files_of, class_a_lines, class_a_file, goes_on, AreBad, bad_lines, method_code};
ghost use Rattle.listing.specs.Rows.{AreCodes, jumps, loads, loads_code, loads_entries, method_handlers, caught, caught_table};
ghost use Rattle.listing.specs.Rows.{caught_entries};

/// The smallest class has the bytes that JVMS 4.1 gives it.
pub fn the_smallest_class_is_assembled()
    ensures smallest { files_of class_a_lines ≡ Ok (class_a_file ∷ []) }
    // A class goes on behind an abstract method.
    ensures goes_on { judged (listing_lines (text goes_on)) ≡ Ok tt }
{}

/// Which listings are refused, at which line and why.
pub fn bad_listings_are_refused()
    ensures { AreBad bad_lines }
{}

/// Jumps lead to their labels, switches are padded, and entries of the constant pool are numbered at their first need.
pub fn codes_are_assembled()
    ensures jumps { AreCodes jumps }
    ensures near { is_near (negsuc 32767) ≡ true }
    ensures far_back { is_near (negsuc 32768) ≡ false }
    ensures far { is_near (pos 32768) ≡ false }
    ensures entries { method_code loads ≡ Ok (loads_code, loads_entries) }
{}

/// An exception table has where a range begins and ends, its handler and the index of its class, 0 for any throwable, and a durable root has one annotation without pairs.
pub fn tables_and_roots_are_assembled()
    ensures handlers { method_handlers caught ≡ Ok (2, caught_table, caught_entries) }
    ensures root { root_bytes 3 4 ≡ 0 ∷ 1 ∷ 0 ∷ 3 ∷ 0 ∷ 0 ∷ 0 ∷ 6 ∷ 0 ∷ 1 ∷ 0 ∷ 4 ∷ 0 ∷ 0 ∷ [] }
{}
