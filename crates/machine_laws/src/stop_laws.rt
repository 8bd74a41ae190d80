// Laws of stops.
ghost use Rattle.machine_laws.specs.StopLaws.{EventsKeepStops, StartsKeepStops};
ghost use Rattle.machine_laws.specs.Opened.{OpenedImagesStart};

/// Each event of a machine: calls of the image, steps of conversions, acts of requests, and regions.
pub fn events_keep_stops()
    ensures { EventsKeepStops }
{}

/// A machine begins so over an image that was opened.
pub fn machines_start_with_allowed_stops()
    ensures { StartsKeepStops }
{}

/// Over an image that was opened a run starts with the layout of the machine's table.
pub fn opened_images_start_machines()
    ensures { OpenedImagesStart }
{}
