ghost use Rattle.std.specs.Prelude.{◌≡◌, ◌≤◌, true, false};
ghost use Rattle.mj_base.specs.Rising.{Rose};

use super::door::{Desk, Door, DoorFailed};
use super::spawner::{SpawnFailed, Spawner};
use mj_base::{MemorySink, MemorySource};

/// Calls that are counted, some of which are to fail.
#[derive(Drop)]
struct Calls {
    failing: Vec<u64>,
    calls: u64,
    faults: u64,
}

impl Calls {
    fn new(failing: Vec<u64>) -> Calls
        ensures { result.faults ≡ 0 }
    {
        Calls {
            failing,
            calls: 0,
            faults: 0,
        }
    }

    /// Whether the next call, whose number is one more than the last one's, is to fail.
    fn fails(&mut self) -> bool
        ensures later { self.old.faults ≤ self.new.faults }
        ensures fails { result ≡ true → Rose self.old.faults self.new.faults }
    {
        let call = self.calls;
        self.calls = call.saturating_add(1);
        if self.failing.contains(&call) {
            self.faults = self.faults.saturating_add(1);
            return true;
        }
        false
    }
}

/// A desk that has no connection.
#[derive(Drop)]
pub struct FakeDesk {
    faults: u64,
}

impl Desk for FakeDesk {
    type In = MemorySource;

    type Out = MemorySink;

    ghost faults = { λ d. d.faults };

    fn accept(&mut self) -> Option<(MemorySource, MemorySink)> {
        self.faults = self.faults.saturating_add(1);
        None
    }
}

/// A door without connections, which fails at the calls that it is told to fail at.
#[derive(Drop)]
pub struct FakeDoor {
    calls: Calls,
}

impl FakeDoor {
    /// The calls whose numbers, from 0, stand in `failing` fail.
    pub fn new(failing: Vec<u64>) -> FakeDoor
        ensures { ⟦<FakeDoor as Door>⟧.faults result ≡ 0 }
    {
        FakeDoor {
            calls: Calls::new(failing),
        }
    }
}

impl Door for FakeDoor {
    type Desk = FakeDesk;

    ghost faults = { λ d. d.calls.faults };

    fn listen(&mut self, _address: &str) -> Result<(), DoorFailed> {
        if self.calls.fails() {
            return Err(DoorFailed);
        }
        Ok(())
    }

    fn desk(&mut self) -> Result<FakeDesk, DoorFailed> {
        if self.calls.fails() {
            return Err(DoorFailed);
        }
        Ok(FakeDesk { faults: 0 })
    }
}

/// A spawner that drops the works which it is given, and fails at the starts that it is told to fail at.
#[derive(Drop)]
pub struct FakeSpawner {
    calls: Calls,
    count: u64,
}

impl FakeSpawner {
    /// The starts whose numbers, from 0, stand in `failing` fail.
    pub fn new(failing: Vec<u64>) -> FakeSpawner
        ensures faults { result.calls.faults ≡ 0 }
        ensures count { result.count ≡ 0 }
    {
        FakeSpawner {
            calls: Calls::new(failing),
            count: 0,
        }
    }
}

impl<W: Drop> Spawner<W> for FakeSpawner {
    ghost count = { λ s. s.count };

    ghost faults = { λ s. s.calls.faults };

    fn spawn(&mut self, _work: W) -> Result<(), SpawnFailed> {
        if self.calls.fails() {
            return Err(SpawnFailed);
        }
        self.count = self.count.saturating_add(1);
        Ok(())
    }

    fn started(&self) -> u64 {
        self.count
    }
}
