// A law of outputs.
ghost use Rattle.printed_output.specs.Output.{OutputsAreTold};

/// The bytes are those of the Print acts exactly where they begin with each piece in turn, and nothing is left.
pub(crate) fn outputs_are_told()
    ensures { OutputsAreTold }
{}
