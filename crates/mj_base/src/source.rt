ghost use Rattle.std.specs.Prelude.{List, ℕ, Option, ◌≡◌, ◌<◌, ◌≤◌, length};
ghost use Rattle.mj_base.specs.Reading.{ReadTakes, ReadCause, ReadMisses};

/// What a read gave.
#[derive(Clone, Copy, Debug, PartialEq, Eq)]
pub enum ReadAnswer {
    /// So many bytes, at least one, at the front of the buffer.
    Got(usize),
    /// Nothing is left.
    End,
    /// The read failed, and took nothing.
    Failed,
}

/// Where bytes come from.
pub trait Source {
    /// What is still to come, where the source tells.
    ghost left: { Self → Option (List ℕ) };

    /// How many reads have failed. It never falls, and stops at its greatest value.
    ghost faults: { Self → ℕ };

    /// What was left when the last read began, where the source tells.
    ghost last: { Self → Option (List ℕ) };

    /// How many reads gave nothing: the end, or a failure. It stops at its greatest value.
    ghost misses: { Self → ℕ };

    /// Reads the next bytes into the front of `into`, which isn't empty.
    fn read(&mut self, into: &mut [u8]) -> ReadAnswer
        requires { 0 < length into.old }
        ensures octets { ReadTakes (left self.old) (left self.new) result into.new }
        ensures later { faults self.old ≤ faults self.new }
        ensures cause { ReadCause (faults self.old) (faults self.new) result }
        ensures last { last self.new ≡ left self.old }
        ensures misses { ReadMisses (misses self.old) (misses self.new) result };
}
