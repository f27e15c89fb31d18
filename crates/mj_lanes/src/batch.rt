ghost use Rattle.std.specs.Prelude.{◌≡◌, ◌≤◌, ◌<◌, [], ◌∷◌, ◌++◌, length, IfOk};

use mj_base::{NoMemory, Octets};
use std::alloc::Global;
use std::marker::Model;

/// A batch has so many pieces at most.
pub const BATCH_PIECES: usize = 64;

/// Pieces that were taken together, with room for as many as there can be.
#[derive(Drop)]
pub struct Batch {
    pieces: Vec<Octets>,
}

impl Model for Batch {
    ghost use Rattle.std.specs.Prelude.{◌≤◌, ℕ, List, vec_capacity};

    ghost Value = { List (List ℕ) };

    ghost view = { λ b. b.pieces.items };

    ghost invariant = { λ b. 64 ≤ vec_capacity b.pieces };
}

impl Batch {
    /// An empty batch.
    pub fn new(alloc: Global) -> Result<Batch, NoMemory>
        ensures { IfOk result (λ batch. batch ≡ []) }
    {
        let pieces = Vec::with_capacity(alloc, BATCH_PIECES)?;
        Ok(Batch { pieces })
    }

    pub fn clear(&mut self)
        ensures { self.new ≡ [] }
    {
        self.pieces.clear();
    }

    /// Adds a piece.
    pub fn add(&mut self, piece: Octets)
        requires { length self.old < 64 }
        ensures { self.new ≡ self.old ++ piece ∷ [] }
    {
        self.pieces.push_reserved(piece);
    }

    pub fn as_slice(&self) -> &[Octets]
        ensures { result.now ≡ self.now }
    {
        self.pieces.as_slice()
    }
}
