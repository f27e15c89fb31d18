ghost use Rattle.std.specs.Prelude.{◌≡◌, ◌+◌, ℕ, List, None, Some, IfOk, OnOk, OnErr, if◌then◌else◌};
ghost use Rattle.std.specs.Str.{bytes_eq};
ghost use Rattle.mj_counted.specs.Names.{key_of};

use super::Steps;
use mj_base::{Name, NoMemory};
use std::alloc::Global;
use std::collections::BTreeMap;
use std::sync::ledger::Ledger;

/// Keys by service names. Each call that looks at them is a step.
#[derive(Drop)]
pub struct Index {
    map: BTreeMap<Vec<u8>, usize>,
    alloc: Global,
}

impl Index {
    /// No names.
    pub fn new(alloc: Global) -> Index
        ensures { (name : List ℕ) → key_of result name ≡ None }
    {
        Index {
            map: BTreeMap::new(alloc),
            alloc,
        }
    }

    /// Puts in a name that isn't there.
    pub fn insert<L: Ledger>(
        &mut self,
        name: &Name,
        key: usize,
        steps: &mut Steps<L>,
    ) -> Result<(), NoMemory>
        requires { key_of self.old name.now ≡ None }
        ensures changed { OnOk result ((other : List ℕ) → key_of self.new other ≡ (if bytes_eq name.now other then Some key else key_of self.old other)) }
        ensures same { OnErr result ((other : List ℕ) → key_of self.new other ≡ key_of self.old other) }
        ensures cost { steps.new ≡ steps.old + 1 }
    {
        steps.tick();
        let bytes = Vec::from_slice(self.alloc, name.as_slice())?;
        self.map.insert(bytes, key)?;
        Ok(())
    }

    /// The key of this name.
    pub fn get<L: Ledger>(&self, name: &Name, steps: &mut Steps<L>) -> Option<usize>
        ensures value { result ≡ key_of self.now name.now }
        ensures cost { steps.new ≡ steps.old + 1 }
    {
        steps.tick();
        self.map.get(name.as_slice()).copied()
    }

    /// Takes this name out.
    pub fn remove<L: Ledger>(&mut self, name: &Name, steps: &mut Steps<L>) -> Option<usize>
        ensures value { result ≡ key_of self.old name.now }
        ensures changed { (other : List ℕ) → key_of self.new other ≡ (if bytes_eq name.now other then None else key_of self.old other) }
        ensures cost { steps.new ≡ steps.old + 1 }
    {
        steps.tick();
        self.map.remove(name.as_slice())
    }
}
