// Laws of heaps.
ghost use Rattle.machine_laws.specs.HeapLaws.{EventsKeepHeaps};

/// Each event of a machine: calls of the image, steps of conversions, acts of requests, and regions.
pub fn events_keep_heaps()
    ensures { EventsKeepHeaps }
{}
