//! How many plans of event records are made.

ghost use Rattle.std.specs.Prelude.{◌≡◌, ◌+◌, ◌<◌, IsTrue, IsFalse};

/// For how many classes, those of the contexts and of the fields of each event, a trace has plans at the most. Tracers
/// write far fewer. Metadata may have more that are made to take memory: a plan takes some 200 bytes for a string, 400
/// for an option of a variant, 900 for an array of arrays, and the plan of each event of a stream has the stream's
/// event context in it.
const MOST_PLANNED: u64 = 1 << 15;

/// For how many classes more a trace may have plans.
#[derive(Drop)]
pub struct PlanRoom {
    pub left: u64,
}

impl PlanRoom {
    /// The room of a trace without plans.
    pub fn new() -> PlanRoom
        ensures { result.left ≡ MOST_PLANNED }
    {
        PlanRoom { left: MOST_PLANNED }
    }

    /// Takes the room for so many classes, where there is so much.
    pub fn take(&mut self, classes: u64) -> bool
        ensures taken { IsTrue result → self.new.left + classes ≡ self.old.left }
        ensures full { IsFalse result → self.old.left < classes }
        ensures kept { IsFalse result → self.new ≡ self.old }
    {
        if classes > self.left {
            return false;
        }
        self.left -= classes;
        true
    }
}
