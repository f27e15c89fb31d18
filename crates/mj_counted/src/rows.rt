ghost use Rattle.std.specs.Prelude.{◌≡◌, ◌+◌, ◌<◌, ◌≤◌, ◌==◌, ℕ, None, Some, if◌then◌else◌, option_copied, IsOk, IfOk, OnOk, OnErr, OnSome, IfNone};
ghost use Rattle.std.specs.Option.{option_copied_mut};
ghost use Rattle.std.specs.Borrow.{sem};
ghost use Rattle.mj_counted.specs.Rows.{entry, entries, spare, lends_get};

use super::Steps;
use mj_base::NoMemory;
use slab::Slab;
use std::alloc::Global;
use std::sync::ledger::Ledger;

/// Entries by keys that it gives itself. Each look at an entry is a step.
#[derive(Drop)]
pub struct Rows<T> {
    slab: Slab<T>,
}

impl<T> Rows<T> {
    /// No entries.
    pub fn new(alloc: Global) -> Rows<T>
        ensures empty { (key : ℕ) → entry result key ≡ None }
        ensures none { entries result ≡ 0 }
    {
        Rows {
            slab: Slab::new(alloc),
        }
    }

    /// Makes room for at least `n` entries more.
    pub fn reserve(&mut self, n: usize) -> Result<(), NoMemory>
        ensures room { OnOk result (n ≤ spare self.new) }
        ensures kept { spare self.old ≤ spare self.new }
        ensures same { (key : ℕ) → entry self.new key ≡ entry self.old key }
        ensures count { entries self.new ≡ entries self.old }
    {
        self.slab.reserve(n)?;
        Ok(())
    }
}

impl<T: Drop> Rows<T> {
    /// Puts an entry in, and answers its key, which was free.
    pub fn insert<L: Ledger>(&mut self, value: T, steps: &mut Steps<L>) -> Result<usize, NoMemory>
        ensures free { IfOk result (λ key. entry self.old key ≡ None) }
        ensures changed { IfOk result (λ key. (other : ℕ) → entry self.new other ≡ (if other == key then Some value else entry self.old other)) }
        ensures ok { 0 < spare self.old → IsOk result }
        ensures room { OnOk result (spare self.old ≤ spare self.new + 1) }
        ensures count { OnOk result (entries self.new ≡ entries self.old + 1) }
        ensures same { OnErr result ((key : ℕ) → entry self.new key ≡ entry self.old key) }
        ensures count_stays { OnErr result (entries self.new ≡ entries self.old) }
        ensures room_stays { OnErr result (spare self.old ≤ spare self.new) }
        ensures cost { steps.new ≡ steps.old + 1 }
    {
        steps.tick();
        Ok(self.slab.insert(value)?)
    }
}

impl<T> Rows<T> {
    /// The entry at this key.
    pub fn get<L: Ledger>(&self, key: usize, steps: &mut Steps<L>) -> Option<&T>
        ensures value { option_copied result ≡ entry self.now key }
        ensures cost { steps.new ≡ steps.old + 1 }
    {
        steps.tick();
        self.slab.get(key)
    }

    /// The entry at this key, to be changed.
    pub fn get_mut<L: Ledger>(&mut self, key: usize, steps: &mut Steps<L>) -> Option<&mut T>
        ensures* writes_back { sem 𝓛 (lends_get T.row self.entry key result) }
        ensures value { option_copied_mut result ≡ entry self.old key }
        ensures cost { steps.new ≡ steps.old + 1 }
    {
        steps.tick();
        self.slab.get_mut(key)
    }

    /// Takes the entry at this key out.
    pub fn take<L: Ledger>(&mut self, key: usize, steps: &mut Steps<L>) -> Option<T>
        ensures value { result ≡ entry self.old key }
        ensures changed { (other : ℕ) → entry self.new other ≡ (if other == key then None else entry self.old other) }
        ensures room { OnSome result (spare self.new ≡ spare self.old + 1) }
        ensures count { OnSome result (entries self.new + 1 ≡ entries self.old) }
        ensures room_stays { IfNone result (spare self.new ≡ spare self.old) }
        ensures count_stays { IfNone result (entries self.new ≡ entries self.old) }
        ensures cost { steps.new ≡ steps.old + 1 }
    {
        steps.tick();
        self.slab.try_remove(key)
    }
}
