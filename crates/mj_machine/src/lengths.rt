ghost use Rattle.std.specs.Prelude.{◌≡◌, ◌==◌, ◌+◌, ◌<◌, ◌^◌, [], ◌∷◌, ◌++◌, length, drop, sum, OnOk, OnErr};

use mj_base::NoMemory;
use std::alloc::Global;
use std::collections::VecDeque;
use std::marker::Model;

/// A list of lengths in bytes, and their sum.
#[derive(Drop)]
pub struct Lengths {
    lengths: VecDeque<u64>,
    total: u64,
}

impl Model for Lengths {
    ghost use Rattle.std.specs.Prelude.{◌≡◌, List, ℕ, sum};

    ghost Value = { List ℕ };

    ghost view = { λ l. l.lengths.items };

    ghost invariant = { λ l. l.total ≡ sum l.lengths.items };
}

impl Lengths {
    pub fn new(alloc: Global) -> Lengths
        ensures { result ≡ [] }
    {
        Lengths {
            lengths: VecDeque::new(alloc),
            total: 0,
        }
    }

    /// The number of lengths.
    pub fn len(&self) -> usize
        ensures { result ≡ length self.now }
    {
        self.lengths.len()
    }

    pub fn is_empty(&self) -> bool
        ensures { result ≡ (length self.now == 0) }
    {
        self.lengths.is_empty()
    }

    /// All lengths together.
    pub fn total(&self) -> u64
        ensures { result ≡ sum self.now }
    {
        self.total
    }

    /// Puts a length last.
    pub fn push(&mut self, length: u64) -> Result<(), NoMemory>
        requires { sum self.old + length < 2 ^ 64 }
        ensures ok { OnOk result (self.new ≡ self.old ++ length ∷ []) }
        ensures err { OnErr result (self.new ≡ self.old) }
    {
        self.lengths.push_back(length)?;
        self.total += length;
        Ok(())
    }

    /// Takes the first length out, if there is one.
    pub fn pop(&mut self)
        ensures { self.new ≡ drop 1 self.old }
    {
        if let Some(length) = self.lengths.pop_front() {
            self.total -= length;
        }
    }
}
