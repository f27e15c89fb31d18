ghost use Rattle.std.specs.Prelude.{◌≡◌, ◌++◌, ◌∷◌, [], ◌==◌, length, slice_get, option_copied, OnOk, OnErr};

use mj_base::NoMemory;
use mj_peer::Act;
use std::alloc::Global;
use std::marker::Model;

/// What a bridge wants done.
#[derive(Drop)]
pub enum BridgeAct {
    /// As a worker of the near broker.
    Near(Act),
    /// As a client of the far one.
    Far(Act),
}

/// A list of a bridge's acts, in the order in which they are to be done.
#[derive(Drop)]
pub struct BridgeActs {
    acts: Vec<BridgeAct>,
}

impl Model for BridgeActs {
    ghost use Rattle.std.specs.Prelude.{List};
    ghost use Rattle.mj_bridge.specs.declared.act.BridgeAct.{BridgeAct};

    ghost Value = { List BridgeAct };

    ghost view = { λ a. a.acts.items };
}

impl BridgeActs {
    pub fn new(alloc: Global) -> BridgeActs
        ensures { result ≡ [] }
    {
        BridgeActs {
            acts: Vec::new(alloc),
        }
    }

    /// The number of acts.
    pub fn len(&self) -> usize
        ensures { result ≡ length self.now }
    {
        self.acts.len()
    }

    /// Whether nothing is to be done.
    pub fn is_empty(&self) -> bool
        ensures { result ≡ (length self.now == 0) }
    {
        self.acts.is_empty()
    }

    /// The act at this place.
    pub fn get(&self, i: usize) -> Option<&BridgeAct>
        ensures { option_copied result ≡ slice_get self.now i }
    {
        self.acts.get(i)
    }

    /// All of them.
    pub fn as_slice(&self) -> &[BridgeAct]
        ensures { result.now ≡ self.now }
    {
        self.acts.as_slice()
    }

    /// Appends an act. Without memory nothing is appended.
    pub fn push(&mut self, act: BridgeAct) -> Result<(), NoMemory>
        ensures ok { OnOk result (self.new ≡ self.old ++ act ∷ []) }
        ensures err { OnErr result (self.new ≡ self.old) }
    {
        self.acts.push(act)?;
        Ok(())
    }
}
