ghost use Rattle.std.specs.Prelude.{◌≡◌, ◌≤◌, ℕ, IfNone, OnErr};
ghost use Rattle.mj_base.specs.Rising.{Rose};

use mj_base::Source;
use mj_lanes::PieceSink;

/// A call of a door failed.
#[derive(Clone, Copy, Debug, PartialEq, Eq)]
pub struct DoorFailed;

/// What takes in the connections of one lane.
pub trait Desk {
    type In: Source + Send + Drop + 'static;

    type Out: PieceSink + Send + Drop + 'static;

    /// How many calls have failed. It never falls, and stops at its greatest value.
    ghost faults: { Self → ℕ };

    /// Waits for the lane's next connection. None: there will be no other.
    fn accept(&mut self) -> Option<(Self::In, Self::Out)>
        ensures later { faults self.old ≤ faults self.new }
        ensures none { IfNone result (Rose (faults self.old) (faults self.new)) };
}

/// What listens, and has a desk for each lane.
pub trait Door {
    type Desk: Desk + Send + Drop + 'static;

    /// How many calls have failed, counted as a desk counts them.
    ghost faults: { Self → ℕ };

    /// Begins to listen at this address.
    fn listen(&mut self, address: &str) -> Result<(), DoorFailed>
        ensures later { faults self.old ≤ faults self.new }
        ensures err { OnErr result (Rose (faults self.old) (faults self.new)) };

    /// A desk for one lane more.
    fn desk(&mut self) -> Result<Self::Desk, DoorFailed>
        ensures later { faults self.old ≤ faults self.new }
        ensures err { OnErr result (Rose (faults self.old) (faults self.new)) };
}
