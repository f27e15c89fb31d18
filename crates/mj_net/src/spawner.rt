ghost use Rattle.std.specs.Prelude.{◌≡◌, ◌≤◌, ◌+◌, ◌-◌, ◌^◌, ℕ, min, OnOk, OnErr};
ghost use Rattle.mj_base.specs.Rising.{Rose, risen};

use std::marker::PhantomData;

/// A thread couldn't be started.
#[derive(Clone, Copy, Debug, PartialEq, Eq)]
pub struct SpawnFailed;

/// What starts works, each in a thread of its own.
pub trait Spawner<W> {
    /// How many works it took. It stops at 2^64 - 1.
    ghost count: { Self → ℕ };

    /// How many starts have failed. It never falls, and stops at its greatest value.
    ghost faults: { Self → ℕ };

    /// It may be asked to start a work.
    ghost ready: { Self → Type 0 } = { λ _. Unit {0} };

    /// Takes a work and starts it.
    fn spawn(&mut self, work: W) -> Result<(), SpawnFailed>
        requires { ready self.old }
        ensures ready { ready self.new }
        ensures later { faults self.old ≤ faults self.new }
        ensures ok { OnOk result (count self.new ≡ risen (count self.old)) }
        ensures err { OnErr result ((count self.new ≡ count self.old) × Rose (faults self.old) (faults self.new)) };

    /// How many works it took.
    fn started(&self) -> u64
        ensures { result ≡ count self.now };
}

/// A spawner over a closure, which starts a thread for the work that it is given and says whether it could.
#[derive(Drop)]
pub struct StdSpawner<W, F> {
    start: F,
    count: u64,
    faults: u64,
    works: PhantomData<W>,
}

impl<W, F: FnMut(W) -> bool> StdSpawner<W, F> {
    /// A spawner that has taken no work.
    pub fn new(start: F) -> StdSpawner<W, F>
        ensures start { result.start ≡ start }
        ensures count { result.count ≡ 0 }
    {
        StdSpawner {
            start,
            count: 0,
            faults: 0,
            works: PhantomData,
        }
    }
}

impl<W, F: FnMut(W) -> bool> Spawner<W> for StdSpawner<W, F> {
    ghost count = { λ s. s.count };

    ghost faults = { λ s. s.faults };

    ghost ready = { λ s. F.IsAlwaysCallable s.start };

    fn spawn(&mut self, work: W) -> Result<(), SpawnFailed> {
        if (self.start)(work) {
            self.count = self.count.saturating_add(1);
            return Ok(());
        }
        self.faults = self.faults.saturating_add(1);
        Err(SpawnFailed)
    }

    fn started(&self) -> u64 {
        self.count
    }
}
