ghost use Rattle.std.specs.Prelude.{List, ℕ, Option, ◌≡◌, ◌<◌, ◌≤◌, length, OnOk, OnErr};
ghost use Rattle.mj_base.specs.declared.link.LinkEntry.{LinkEntry};
ghost use Rattle.mj_base.specs.Linking.{Tells, LinkReads, LinkWrites, LinkReadCause, LinkWriteCause, reopened};

use super::{NoMemory, Octets};

/// What a link gives.
#[derive(Drop)]
pub enum LinkEvent {
    /// The next bytes of the peer's stream.
    Given(Octets),
    /// The peer gave nothing for 100 ms.
    Idle,
    /// The link has ended.
    End,
}

/// What a read of a link gave.
#[derive(Clone, Copy, Debug, PartialEq, Eq)]
pub enum LinkAnswer {
    /// So many bytes, at least one, at the front of the buffer.
    Got(usize),
    /// Nothing came for 100 ms.
    Idle,
    /// The link has ended.
    End,
    /// There was no memory, and nothing was read.
    NoMemory,
    /// The read failed, and took nothing.
    Failed,
}

/// What became of a write to a link.
#[derive(Clone, Copy, Debug, PartialEq, Eq)]
pub enum LinkWrite {
    /// All bytes were written. Where the link has ended they are lost.
    Done,
    /// There was no memory, and nothing was written.
    NoMemory,
    /// The write failed. Any front of the bytes may have gone out.
    Failed,
}

/// What passed on a link.
#[derive(Drop)]
pub enum LinkEntry {
    /// These bytes were read.
    Got(Octets),
    /// A read was answered by `Idle`.
    Idle,
    /// A read was answered by `End`.
    End,
    /// These bytes were written.
    Wrote(Octets),
    /// The link was opened anew.
    Reopened,
}

/// A connection to a peer, which can be opened anew.
pub trait Link {
    /// What passed, oldest first, where the link tells.
    ghost told: { Self → Option (List LinkEntry) };

    /// How many reads have failed. It never falls, and stops at its greatest value.
    ghost read_faults: { Self → ℕ };

    /// How many writes have failed, counted alike.
    ghost write_faults: { Self → ℕ };

    /// Reads the next bytes into the front of `into`, which isn't empty.
    fn read(&mut self, into: &mut [u8]) -> LinkAnswer
        requires { 0 < length into.old }
        ensures told { LinkReads (told self.old) (told self.new) result into.new }
        ensures cause { LinkReadCause (read_faults self.old) (read_faults self.new) result }
        ensures reads { read_faults self.old ≤ read_faults self.new }
        ensures writes { write_faults self.old ≤ write_faults self.new };

    fn write(&mut self, octets: &[u8]) -> LinkWrite
        ensures told { LinkWrites (told self.old) (told self.new) result octets.now }
        ensures cause { LinkWriteCause (write_faults self.old) (write_faults self.new) result }
        ensures reads { read_faults self.old ≤ read_faults self.new }
        ensures writes { write_faults self.old ≤ write_faults self.new };

    /// Gives the connection up and opens another. What was read of the old one is forgotten.
    fn reopen(&mut self) -> Result<(), NoMemory>
        ensures ok { OnOk result (Tells (told self.old) (told self.new) reopened) }
        ensures err { OnErr result (told self.new ≡ told self.old) }
        ensures reads { read_faults self.old ≤ read_faults self.new }
        ensures writes { write_faults self.old ≤ write_faults self.new };
}
