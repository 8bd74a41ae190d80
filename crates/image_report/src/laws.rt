//! The definitions of the texts are those that are meant: worked texts, word for word.
ghost use Rattle.image_report.specs.Rows.{TextsAreThese};

/// The lines about a blank image and one with a ring of three nodes, and what `dump` prints of them. Does nothing.
pub fn worked_texts_are_these()
    ensures { TextsAreThese }
{}
