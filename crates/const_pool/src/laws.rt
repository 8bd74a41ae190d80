//! Laws of the grammar of pools and descriptors, by computation. Each function states some in its contract, and does nothing.

ghost use Rattle.const_pool.specs.Rows.{AreAnswers, pools, no_pools, AreParsed, descriptors, no_descriptors};

/// Small pools are read, and what is none has its fault.
pub fn small_pools_have_their_answers()
    ensures read { AreAnswers pools }
    ensures refused { AreAnswers no_pools }
{}

/// Small descriptors are read, and other texts are none.
pub fn small_descriptors_are_read()
    ensures read { AreParsed descriptors }
    ensures none { AreParsed no_descriptors }
{}
