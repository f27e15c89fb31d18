ghost use Rattle.std.specs.Prelude.{◌≡◌, ◌≤◌, ◌<◌, ◌+◌, ◌++◌, ◌⊎◌, true, length, vec_len, vec_capacity, OnOk, OnErr, IsOk, if◌then◌else◌};
ghost use Rattle.std.specs.FinMap as map;
ghost use Rattle.mj_lease.specs.LeaseMap.{due_of};

use super::entries::{count_due, put_entry, take_entry};
use mj_base::NoMemory;
use std::alloc::Global;
use std::marker::Model;

/// A map from a connection's number to the moment, in milliseconds, at which its lease ends.
#[derive(Drop)]
pub struct Leases {
    entries: Vec<(u64, u64)>,
}

impl Model for Leases {
    ghost use Rattle.std.specs.Prelude.{T, ◌-◌, vec_len, vec_capacity};
    ghost use Rattle.std.specs.Ordering.{nat_cmp};
    ghost use Rattle.std.specs.FinMap as map;
    ghost use Rattle.mj_lease.specs.LeaseMap.{LeaseMap, lease_map_code};

    ghost Value = { LeaseMap };

    ghost coded = { lease_map_code };

    ghost view = { λ l. record { leases = map.from_sorted l.entries.items; spare = vec_capacity l.entries - vec_len l.entries } };

    ghost invariant = { λ l. T (map.is_sorted nat_cmp l.entries.items) };
}

impl Leases {
    pub fn new(alloc: Global) -> Leases
        ensures { result.leases ≡ map.empty }
    {
        Leases {
            entries: Vec::new(alloc),
        }
    }

    /// Makes spare room for at least `n` leases of further connections.
    pub fn reserve(&mut self, n: usize) -> Result<(), NoMemory>
        ensures leases { OnOk result (self.new.leases ≡ self.old.leases) }
        ensures spare { OnOk result (n ≤ self.new.spare) }
        ensures err { OnErr result (self.new ≡ self.old) }
    {
        self.entries.reserve(n)?;
        Ok(())
    }

    /// Sets the deadline of this connection, whether it had one or not.
    pub fn put(&mut self, conn: u64, deadline: u64)
        requires { (map.contains_key self.old.leases conn ≡ true) ⊎ (0 < self.old.spare) }
        ensures leases { self.new.leases ≡ map.insert self.old.leases conn deadline }
        ensures spare { self.old.spare ≤ self.new.spare + (if map.contains_key self.old.leases conn then 0 else 1) }
    {
        put_entry(&mut self.entries, conn, deadline);
    }

    /// Takes the connection out, if it is there.
    pub fn remove(&mut self, conn: u64)
        ensures leases { self.new.leases ≡ map.remove self.old.leases conn }
        ensures spare { self.old.spare + (if map.contains_key self.old.leases conn then 1 else 0) ≤ self.new.spare }
    {
        take_entry(&mut self.entries, conn);
    }

    /// Appends the connections whose deadline is at most `now`, by rising number. Without memory nothing is
    /// appended; none is wanted where `out` has room for those that are due.
    pub fn due(&self, now: u64, out: &mut Vec<u64>) -> Result<(), NoMemory>
        ensures ok { OnOk result (out.new.items ≡ out.old.items ++ due_of now self.now.leases) }
        ensures err { OnErr result (out.new.items ≡ out.old.items) }

        // Room for all leases is enough, and so is room for those that are due.
        ensures room { vec_len out.old + map.len self.now.leases ≤ vec_capacity out.old → IsOk result }
        ensures due_room { vec_len out.old + length (due_of now self.now.leases) ≤ vec_capacity out.old → IsOk result }
    {
        out.reserve(count_due(&self.entries, now))?;
        for (conn, deadline) in &self.entries {
            if *deadline <= now {
                out.push(*conn).unwrap();
            }
        }
        Ok(())
    }
}
