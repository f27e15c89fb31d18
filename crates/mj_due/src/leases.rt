ghost use Rattle.std.specs.Prelude.{◌≡◌, ◌≤◌, ◌<◌, ◌+◌, ◌*◌, ◌^◌, ◌++◌, ◌⊎◌, [], true, false, length, vec_len, vec_capacity, OnOk, OnErr, IsOk, if◌then◌else◌};
ghost use Rattle.std.specs.FinMap as map;
ghost use Rattle.mj_lease.specs.LeaseMap.{due_of};
ghost use Rattle.mj_due.specs.Leases.{due_pairs};
ghost use Rattle.mj_due.specs.Numbers.{put_all};

use crate::numbers::put_number;
use crate::orders::{add_lease, conn_at, count_due, take_lease};
use mj_base::NoMemory;
use mj_counted::{Order, Steps};
use std::alloc::Global;
use std::marker::Model;
use std::sync::ledger::Ledger;

/// A map from a connection's number to the moment, in milliseconds, at which its lease ends.
#[derive(Drop)]
pub struct Leases {
    by_conn: Order,
    by_deadline: Order,
    room: usize,
}

impl Model for Leases {
    ghost use Rattle.std.specs.Prelude.{◌≤◌};
    ghost use Rattle.std.specs.FinMap as map;
    ghost use Rattle.mj_lease.specs.LeaseMap.{LeaseMap, lease_map_code};
    ghost use Rattle.mj_due.specs.Leases.{AreLeases};

    ghost Value = { LeaseMap };

    ghost coded = { lease_map_code };

    ghost view = { λ l. record { leases = map.from_entries l.by_conn.pairs; spare = l.room } };

    // The room that was promised is there in both orders.
    ghost invariant = { λ l. AreLeases l.by_conn.pairs l.by_deadline.pairs × (l.room ≤ l.by_conn.spare) × (l.room ≤ l.by_deadline.spare) };
}

impl Leases {
    pub fn new(alloc: Global) -> Leases
        ensures { result.leases ≡ map.empty }
    {
        Leases {
            by_conn: Order::new(alloc),
            by_deadline: Order::new(alloc),
            room: 0,
        }
    }

    /// Takes the table apart. Each field is named here and put where its type is, so that no further one goes unseen.
    pub fn take_apart(self) {
        let Leases {
            by_conn,
            by_deadline,
            room,
        } = self;
        let _orders: (Order, Order) = (by_conn, by_deadline);
        let _room: usize = room;
    }

    /// Makes spare room for at least `n` leases of further connections.
    pub fn reserve(&mut self, n: usize) -> Result<(), NoMemory>
        ensures leases { OnOk result (self.new.leases ≡ self.old.leases) }
        ensures spare { OnOk result (n ≤ self.new.spare) }
        ensures err { OnErr result (self.new ≡ self.old) }
    {
        self.by_conn.reserve(n)?;
        self.by_deadline.reserve(n)?;
        self.room = self.room.max(n);
        Ok(())
    }

    /// Sets the deadline of this connection, whether it had one or not.
    pub fn put<L: Ledger>(&mut self, conn: u64, deadline: u64, steps: &mut Steps<L>)
        requires { (map.contains_key self.old.leases conn ≡ true) ⊎ (0 < self.old.spare) }
        ensures leases { self.new.leases ≡ map.insert self.old.leases conn deadline }
        ensures spare { self.old.spare ≤ self.new.spare + (if map.contains_key self.old.leases conn then 0 else 1) }
        ensures cost { steps.new ≤ steps.old + 40 }
    {
        let was_there = take_lease(&mut self.by_conn, &mut self.by_deadline, conn, steps);
        self.room = room_after_put(self.room, was_there);
        add_lease(
            &mut self.by_conn,
            &mut self.by_deadline,
            conn,
            deadline,
            steps,
        );
    }

    /// Takes the connection out, if it is there.
    pub fn remove<L: Ledger>(&mut self, conn: u64, steps: &mut Steps<L>)
        ensures leases { self.new.leases ≡ map.remove self.old.leases conn }
        ensures spare { self.old.spare + (if map.contains_key self.old.leases conn then 1 else 0) ≤ self.new.spare }
        ensures cost { steps.new ≤ steps.old + 40 }
    {
        let was_there = take_lease(&mut self.by_conn, &mut self.by_deadline, conn, steps);
        self.room = room_after_remove(self.room, was_there);
    }

    /// Appends the connections whose deadline is at most `now`, by rising number. Without memory nothing is
    /// appended; none is wanted where `out` has room for those that are due.
    pub fn due<L: Ledger>(
        &self,
        now: u64,
        out: &mut Vec<u64>,
        steps: &mut Steps<L>,
    ) -> Result<(), NoMemory>
        ensures ok { OnOk result (out.new.items ≡ out.old.items ++ due_of now self.now.leases) }
        ensures err { OnErr result (out.new.items ≡ out.old.items) }

        // Room for all leases is enough, and so is room for those that are due.
        ensures room { vec_len out.old + map.len self.now.leases ≤ vec_capacity out.old → IsOk result }
        ensures due_room { vec_len out.old + length (due_of now self.now.leases) ≤ vec_capacity out.old → IsOk result }
        ensures cost { steps.new ≤ steps.old + 2 * length (due_of now self.now.leases) + 2 }
    {
        let count = count_due(&self.by_deadline, now, steps);
        out.reserve(count)?;
        put_due(&self.by_deadline, count, now, out, steps);
        Ok(())
    }
}

fn room_after_put(room: usize, was_there: bool) -> usize
    requires { was_there ≡ false → 0 < room }
    ensures { result + (if was_there then 0 else 1) ≡ room }
{
    if was_there { room } else { room - 1 }
}

fn room_after_remove(room: usize, was_there: bool) -> usize
    requires { was_there ≡ true → room + 1 < 2 ^ 64 }
    ensures { result ≡ room + (if was_there then 1 else 0) }
{
    if was_there { room + 1 } else { room }
}

/// Appends the connections of the first `count` pairs, those that are due, by rising number.
fn put_due<L: Ledger>(
    order: &Order,
    count: usize,
    now: u64,
    out: &mut Vec<u64>,
    steps: &mut Steps<L>,
)
    requires count { count ≡ length (due_pairs now order.now.pairs) }
    requires room { vec_len out.old + count ≤ vec_capacity out.old }
    ensures put { out.new.items ≡ out.old.items ++ put_all [] (due_pairs now order.now.pairs) }
    ensures cost { steps.new ≡ steps.old + count }
{
    let start = out.len();
    for at in 0..count {
        let conn = conn_at(order, at, now, steps);
        put_number(out, start, conn);
    }
}
