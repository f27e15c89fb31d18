ghost use Rattle.std.specs.Prelude.{List, ℕ, Option, ◌≤◌};
ghost use Rattle.mj_base.specs.Writing.{WriteAdds, WriteCause, WantCause};

/// What became of a write.
#[derive(Clone, Copy, Debug, PartialEq, Eq)]
pub enum WriteAnswer {
    /// All bytes were written.
    Done,
    /// There was no memory, and nothing was written.
    NoMemory,
    /// The write failed: of the bytes a front was written, which may be nothing or all.
    Failed,
}

/// Where bytes go.
pub trait Sink {
    /// What was written, where the sink tells.
    ghost written: { Self → Option (List ℕ) };

    /// How many writes have failed. It never falls, and stops at its greatest value.
    ghost faults: { Self → ℕ };

    /// How many writes had no memory. It counts as the faults do.
    ghost wants: { Self → ℕ };

    fn write(&mut self, octets: &[u8]) -> WriteAnswer
        ensures octets { WriteAdds (written self.old) (written self.new) result octets.now }
        ensures later { faults self.old ≤ faults self.new }
        ensures cause { WriteCause (faults self.old) (faults self.new) result }
        ensures wants_later { wants self.old ≤ wants self.new }
        ensures want { WantCause (wants self.old) (wants self.new) result };
}
