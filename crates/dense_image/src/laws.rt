// Laws of dense images. Each function states one in its contract, and does nothing.
ghost use Rattle.dense_image.specs.Laws.{WrittenImagesStand, StandingGraphsCanBeStoodFor, RoomIsTold};

/// A dense image is well formed and stands for its graph, and its first free line comes behind as many lines as its nodes take.
pub fn written_images_stand()
    ensures { WrittenImagesStand }
{}

/// Each graph for which an image stands can be written to a further one.
pub fn standing_graphs_can_be_written()
    ensures { StandingGraphsCanBeStoodFor }
{}

/// There is room for a graph exactly where neither words of the directory nor lines are wanting.
pub fn room_is_told()
    ensures { RoomIsTold }
{}
