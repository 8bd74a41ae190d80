// Laws of what a stop may do to acts.
ghost use Rattle.kept_lists.specs.Fitting.{FittingKeepsSound, KeptListsFit};
ghost use Rattle.kept_lists.specs.Goes.{DoubtsGoOn};

/// Doubts that are told act after act stand for them: each act's fate is what its doubt and its thread's acts since say.
pub fn doubts_go_on()
    ensures { DoubtsGoOn }
{}

/// Where all acts fit the heaps before them, so do those of each kept list, which leave a sound heap sound.
pub fn kept_lists_fit()
    ensures fit { KeptListsFit }
    ensures sound { FittingKeepsSound }
{}
