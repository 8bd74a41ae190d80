// Who is told each act.
ghost use Rattle.std.specs.Prelude.{◌≡◌, List, Option};
ghost use Rattle.run_history.specs.Recorded.{Recorded, with_seen};

use crate::Act;

/// Is told each act once, in order.
pub trait Watcher: Drop {
    /// What it saw, where it tells.
    ghost seen: { Self → Option (List Recorded) };

    /// `objects` are those of a Joined act, and no others.
    fn saw(&mut self, act: &Act, objects: &[u32])
        ensures seen { seen self.new ≡ with_seen (seen self.old) (record { act = act.now; named = objects.now }) };
}

/// Does nothing, and tells nothing.
#[derive(Clone, Copy, Debug, Default, PartialEq, Eq)]
pub struct NoWatch;

impl Watcher for NoWatch {
    ghost use Rattle.std.specs.Prelude.{None};

    ghost seen = { λ _. None };

    fn saw(&mut self, _act: &Act, _objects: &[u32]) {}
}
