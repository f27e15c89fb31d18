ghost use Rattle.std.specs.Prelude.{◌≡◌, ◌++◌, ◌∷◌, [], ◌==◌, length, slice_get, option_copied, OnOk, OnErr};

use mj_base::{Frames, NoMemory, Octets};
use std::alloc::Global;
use std::marker::Model;

/// What an end wants done.
#[derive(Drop)]
pub enum Act {
    /// These bytes are to be written to the link.
    Write(Octets),
    /// The link is to be opened anew. What is written next goes to the new one.
    Reopen,
    /// A partial reply came.
    Part(Frames),
    /// The final reply came, and the request is closed.
    Done(Frames),
    /// A request was answered.
    Served,
    /// As many requests were answered as were to be.
    Finished,
    /// The last try ended without an answer.
    NoAnswer,
}

/// A list of acts, in the order in which they are to be done.
#[derive(Drop)]
pub struct Acts {
    acts: Vec<Act>,
}

impl Model for Acts {
    ghost use Rattle.std.specs.Prelude.{List};
    ghost use Rattle.mj_peer.specs.declared.act.Act.{Act};

    ghost Value = { List Act };

    ghost view = { λ a. a.acts.items };
}

impl Acts {
    pub fn new(alloc: Global) -> Acts
        ensures { result ≡ [] }
    {
        Acts {
            acts: Vec::new(alloc),
        }
    }

    /// The number of acts.
    pub fn len(&self) -> usize
        ensures { result ≡ length self.now }
    {
        self.acts.len()
    }

    /// Whether nothing is to be done.
    pub fn is_empty(&self) -> bool
        ensures { result ≡ (length self.now == 0) }
    {
        self.acts.is_empty()
    }

    /// The act at this place.
    pub fn get(&self, i: usize) -> Option<&Act>
        ensures { option_copied result ≡ slice_get self.now i }
    {
        self.acts.get(i)
    }

    /// All of them.
    pub fn as_slice(&self) -> &[Act]
        ensures { result.now ≡ self.now }
    {
        self.acts.as_slice()
    }

    /// All of them, handed out.
    pub fn into_vec(self) -> Vec<Act>
        ensures { result.items ≡ self }
    {
        self.acts
    }

    /// Appends an act. Without memory nothing is appended.
    pub fn push(&mut self, act: Act) -> Result<(), NoMemory>
        ensures ok { OnOk result (self.new ≡ self.old ++ act ∷ []) }
        ensures err { OnErr result (self.new ≡ self.old) }
    {
        self.acts.push(act)?;
        Ok(())
    }
}
