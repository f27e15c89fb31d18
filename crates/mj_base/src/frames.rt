ghost use Rattle.std.specs.Prelude.{◌≡◌, ◌==◌, ◌+◌, ◌-◌, ◌^◌, ◌<◌, [], ◌∷◌, ◌++◌, length, min, take, drop, sum_by, slice_get, option_copied, OnOk, OnErr, IfOk, MatchOption};
ghost use Rattle.mj_base.specs.KeptWeight.{weight_of};

use super::{NoMemory, Octets};
use std::alloc::Global;
use std::marker::Model;

/// A list of frames, each a list of bytes.
#[derive(Drop)]
pub struct Frames {
    frames: Vec<Octets>,
    octets: u64,
}

impl Model for Frames {
    ghost use Rattle.std.specs.Prelude.{◌≡◌, List, ℕ, length, sum_by};

    ghost Value = { List (List ℕ) };

    ghost view = { λ f. f.frames.items };

    ghost invariant = { λ f. f.octets ≡ sum_by length f.frames.items };
}

impl Frames {
    pub fn new(alloc: Global) -> Frames
        ensures { result ≡ [] }
    {
        Frames {
            frames: Vec::new(alloc),
            octets: 0,
        }
    }

    /// Appends a copy of this frame. Without memory nothing is appended.
    pub fn push(&mut self, frame: &[u8]) -> Result<(), NoMemory>
        ensures ok { OnOk result (self.new ≡ self.old ++ frame.now ∷ []) }
        ensures err { OnErr result (self.new ≡ self.old) }
    {
        let Some(octets) = self.octets.checked_add(frame.len() as u64) else {
            return Err(NoMemory);
        };
        let mut copy = Octets::new(*self.frames.allocator());
        copy.push_all(frame)?;
        self.frames.push(copy)?;
        self.octets = octets;
        Ok(())
    }

    /// The number of frames.
    pub fn len(&self) -> usize
        ensures { result ≡ length self.now }
    {
        self.frames.len()
    }

    pub fn is_empty(&self) -> bool
        ensures { result ≡ (length self.now == 0) }
    {
        self.frames.is_empty()
    }

    /// The frame at this place.
    pub fn get(&self, i: usize) -> Option<&[u8]>
        ensures value { option_copied result ≡ slice_get self.now i }
        ensures rest { MatchOption result (drop i self.now ≡ []) (λ frame. (i < length self.now) × (drop i self.now ≡ frame.now ∷ drop (i + 1) self.now)) }
    {
        self.frame(i)
    }

    fn frame(&self, i: usize) -> Option<&[u8]>
        ensures { option_copied result ≡ slice_get self.now i }
    {
        match self.frames.get(i) {
            Some(frame) => Some(frame.as_slice()),
            None => None,
        }
    }

    /// Appends copies of the other's frames from this place on. Without memory nothing is appended.
    pub fn append_from(&mut self, other: &Frames, from: usize) -> Result<(), NoMemory>
        ensures ok { OnOk result (self.new ≡ self.old ++ drop from other.now) }
        ensures err { OnErr result (self.new ≡ self.old) }
    {
        let len = self.frames.len();
        let octets = self.octets;
        let Err(error) = self.append_some(other, from) else {
            return Ok(());
        };
        self.frames.truncate(len);
        self.octets = octets;
        Err(error)
    }

    /// Appends copies of the other's frames from this place on. Without memory a front of them is appended.
    fn append_some(&mut self, other: &Frames, from: usize) -> Result<(), NoMemory>
        ensures ok { OnOk result (self.new ≡ self.old ++ drop from other.now) }
        ensures err { OnErr result (take (length self.old) self.new ≡ self.old) }
    {
        for i in from..other.len() {
            if let Some(frame) = other.get(i) {
                self.push(frame)?;
            }
        }
        Ok(())
    }

    /// The frames from this place on, as a list of their own.
    pub fn copy_from(&self, from: usize) -> Result<Frames, NoMemory>
        ensures { IfOk result (λ frames. frames ≡ drop from self.now) }
    {
        let mut copy = Frames::new(*self.frames.allocator());
        copy.append_from(self, from)?;
        Ok(copy)
    }

    /// The number of bytes of all frames together.
    pub fn octets(&self) -> u64
        ensures { result ≡ sum_by length self.now }
    {
        self.octets
    }

    /// What they count in a bound on memory: a byte is 1, and a frame 32 more. It stops at 2^64 - 1.
    pub fn weight(&self) -> u64
        ensures { result ≡ min (weight_of self.now) (2 ^ 64 - 1) }
    {
        (self.frames.len() as u64)
            .saturating_mul(32)
            .saturating_add(self.octets)
    }

    /// An equal list of its own.
    pub fn copy(&self) -> Result<Frames, NoMemory>
        ensures { IfOk result (λ frames. frames ≡ self.now) }
    {
        self.copy_from(0)
    }
}
