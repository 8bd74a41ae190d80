// Laws of the start, of moves, and of calls of the image.
ghost use Rattle.two_spaces.specs.Moving.{ForwardsMoveKeys, LinesBehindSpareRoots, MonitorsStayKnown, MovesFollow};
ghost use Rattle.two_spaces.specs.Moving.{MovesLeaveWhole, MovesShowTheSame, OneLineSparesRoots, OthersKeepKeys};
ghost use Rattle.two_spaces.specs.Moving.{RekeyedShowsSameWorld, SameShowsSameWorld};
ghost use Rattle.two_spaces.specs.Quiet.{ImageCallsAreQuiet, QuietKeepsKeys, QuietKeepsMonitors, QuietLeavesWhole};
ghost use Rattle.two_spaces.specs.Quiet.{QuietMovesNone, QuietShowsSameWorld, QuietShowsTheSame, StoresBesideAreQuiet};
ghost use Rattle.two_spaces.specs.Starts.{BeginningsStand, OwnShapesAreClasses, OwnShapesStand};

/// A twin heap as it is made of an image's objects is whole with tables of their classes and static fields that hold
/// nothing else. The plainest tables are such: those where each class has its own number.
pub fn heaps_begin_whole()
    ensures begins { BeginningsStand }
    ensures own_classes { OwnShapesAreClasses }
    ensures own_shapes { OwnShapesStand }
{}

/// A claim, a copy, a forward, a repair and a seal leave a heap whole that shows the same objects by the same numbers
/// and the same static fields, and each reference stands for its number; so it shows the same world.
pub fn moves_show_the_same_world()
    ensures whole { MovesLeaveWhole }
    ensures shows { MovesShowTheSame }
    ensures world { SameShowsSameWorld }
{}

/// Moves change no root slot where they store to lines behind them alone, and several after one another are a move as one
/// is, whichever lines they change.
pub fn moves_follow_one_another()
    ensures lines { LinesBehindSpareRoots }
    ensures one_line { OneLineSparesRoots }
    ensures twice { MovesFollow }
{}

/// A forward alone changes under which reference a monitor is held: its object's is that to the copy. Once the monitor
/// is held under that, the same world is shown.
pub fn forwards_move_keys()
    ensures others { OthersKeepKeys }
    ensures monitors { MonitorsStayKnown }
    ensures forwards { ForwardsMoveKeys }
    ensures rekeyed { RekeyedShowsSameWorld }
{}

/// A touch, a write-back and a fence leave a heap whole that shows the same, under the same keys; so does a store to a
/// line of no object and no root slot.
pub fn calls_of_the_image_show_the_same()
    ensures calls { ImageCallsAreQuiet }
    ensures beside { StoresBesideAreQuiet }
    ensures none { QuietMovesNone }
    ensures whole { QuietLeavesWhole }
    ensures shows { QuietShowsTheSame }
    ensures keys { QuietKeepsKeys }
    ensures world { QuietShowsSameWorld }
    ensures monitors { QuietKeepsMonitors }
{}
