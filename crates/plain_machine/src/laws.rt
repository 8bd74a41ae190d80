// Laws of plain machines.
ghost use Rattle.plain_machine.specs.Beginnings.{MachinesBegin};

/// A machine whose heap is the first one of a class set and an opening graph, and beside it all is
/// as it begins, stands for the
/// empty run.
pub fn machines_begin()
    ensures { MachinesBegin }
{
    run_forms::machines_go_on_as_plain_runs();
}
