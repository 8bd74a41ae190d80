// Laws of layouts, and of the names of a group.
ghost use Rattle.machine_forms.specs.Machines.{LayoutsFollowTables};
ghost use Rattle.machine_forms.specs.Naming.{GroupsNameTheirs, SealsTakeQueues};

/// The layout of a table says where its durable objects lie, and depends on these alone.
pub fn durable_objects_lie_in_the_layout()
    ensures { LayoutsFollowTables }
{}

/// What the threads of a group have queued, named in the order of the threads and of their queues, is
/// what they have claimed, each object once: what the act of the group's seal is to name. There is
/// something to name where the sealing thread has queued an object, or needs a thread. After the seal as
/// many objects are queued no more.
pub fn groups_name_theirs()
    ensures names { GroupsNameTheirs }
    ensures queues { SealsTakeQueues }
{}
