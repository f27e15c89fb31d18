//! Until when each worker's lease runs, as `mj_due` keeps it. Each call makes the counter of its steps.
ghost use Rattle.std.specs.Prelude.{◌≡◌, ◌≤◌, ◌<◌, ◌+◌, ◌++◌, ◌⊎◌, true, length, vec_len, vec_capacity, OnOk, OnErr, IsOk, if◌then◌else◌};
ghost use Rattle.std.specs.FinMap as map;
ghost use Rattle.mj_lease.specs.LeaseMap.{due_of};

use mj_base::NoMemory;
use mj_counted::Steps;
use std::alloc::Global;
use std::marker::{Brand, Model};
use std::sync::ledger::{Blank, Ledger};

/// A map from a connection's number to the moment, in milliseconds, at which its lease ends.
#[derive(Drop)]
pub struct Leases {
    counted: mj_due::Leases,
}

impl Model for Leases {
    ghost use Rattle.mj_lease.specs.LeaseMap.{LeaseMap, lease_map_code};

    ghost Value = { LeaseMap };

    ghost coded = { lease_map_code };

    ghost view = { λ l. record { leases = l.counted.leases; spare = l.counted.spare } };
}

impl Leases {
    pub fn new(alloc: Global) -> Leases
        ensures { result.leases ≡ map.empty }
    {
        Leases {
            counted: mj_due::Leases::new(alloc),
        }
    }

    /// Makes spare room for at least `n` leases of further connections.
    pub fn reserve(&mut self, n: usize) -> Result<(), NoMemory>
        ensures leases { OnOk result (self.new.leases ≡ self.old.leases) }
        ensures spare { OnOk result (n ≤ self.new.spare) }
        ensures err { OnErr result (self.new ≡ self.old) }
    {
        self.counted.reserve(n)
    }

    /// Sets the deadline of this connection, whether it had one or not.
    pub fn put(&mut self, conn: u64, deadline: u64)
        requires { (map.contains_key self.old.leases conn ≡ true) ⊎ (0 < self.old.spare) }
        ensures leases { self.new.leases ≡ map.insert self.old.leases conn deadline }
        ensures spare { self.old.spare ≤ self.new.spare + (if map.contains_key self.old.leases conn then 0 else 1) }
    {
        put::<Brand>(&mut self.counted, conn, deadline, Blank::new(1));
    }

    /// Takes the connection out, if it is there.
    pub fn remove(&mut self, conn: u64)
        ensures leases { self.new.leases ≡ map.remove self.old.leases conn }
        ensures spare { self.old.spare + (if map.contains_key self.old.leases conn then 1 else 0) ≤ self.new.spare }
    {
        remove::<Brand>(&mut self.counted, conn, Blank::new(1));
    }

    /// Appends the connections whose deadline is at most `now`, by rising number. Without memory nothing is
    /// appended; none is wanted where `out` has room for those that are due.
    pub fn due(&self, now: u64, out: &mut Vec<u64>) -> Result<(), NoMemory>
        ensures ok { OnOk result (out.new.items ≡ out.old.items ++ due_of now self.now.leases) }
        ensures err { OnErr result (out.new.items ≡ out.old.items) }
        ensures due_room { vec_len out.old + length (due_of now self.now.leases) ≤ vec_capacity out.old → IsOk result }
    {
        due::<Brand>(&self.counted, now, out, Blank::new(1))
    }
}

fn put<L: Ledger>(leases: &mut mj_due::Leases, conn: u64, deadline: u64, blank: Blank)
    requires name { blank.name ≡ L.name }
    requires parts { (blank.parts ≡ L.parts) × (0 < L.parts) }
    requires room { (map.contains_key leases.old.leases conn ≡ true) ⊎ (0 < leases.old.spare) }
    ensures leases { leases.new.leases ≡ map.insert leases.old.leases conn deadline }
    ensures spare { leases.old.spare ≤ leases.new.spare + (if map.contains_key leases.old.leases conn then 0 else 1) }
{
    leases.put(conn, deadline, &mut Steps::<L>::new(blank));
}

fn remove<L: Ledger>(leases: &mut mj_due::Leases, conn: u64, blank: Blank)
    requires name { blank.name ≡ L.name }
    requires parts { (blank.parts ≡ L.parts) × (0 < L.parts) }
    ensures leases { leases.new.leases ≡ map.remove leases.old.leases conn }
    ensures spare { leases.old.spare + (if map.contains_key leases.old.leases conn then 1 else 0) ≤ leases.new.spare }
{
    leases.remove(conn, &mut Steps::<L>::new(blank));
}

fn due<L: Ledger>(
    leases: &mj_due::Leases,
    now: u64,
    out: &mut Vec<u64>,
    blank: Blank,
) -> Result<(), NoMemory>
    requires name { blank.name ≡ L.name }
    requires parts { (blank.parts ≡ L.parts) × (0 < L.parts) }
    ensures ok { OnOk result (out.new.items ≡ out.old.items ++ due_of now leases.now.leases) }
    ensures err { OnErr result (out.new.items ≡ out.old.items) }
    ensures due_room { vec_len out.old + length (due_of now leases.now.leases) ≤ vec_capacity out.old → IsOk result }
{
    leases.due(now, out, &mut Steps::<L>::new(blank))
}
