// The machine of the references against the plain one. Each function states a law in its contract,
// and does nothing but cite others.

ghost use Rattle.program_host.specs.Numbers.{MachinesCorrespond, MachinesCorrespondOverHeaps};

use ap_base::{Item, Ref};
use graph_model::Value;

/// The setting of a program's host and that of the plain machine correspond by each number map that
/// leads each literal's reference to the number of its object, and so turns and answers go alike. So
/// they do over each heap whose literals have the numbers of their objects.
pub fn machines_correspond()
    ensures by_number { MachinesCorrespond }
    ensures over_heaps { MachinesCorrespondOverHeaps }
{
    plain_frames::items_are_alike();
    plain_frames::machines_with_built_in_methods_go_alike::<Ref, Value, Item, Value>();
}
