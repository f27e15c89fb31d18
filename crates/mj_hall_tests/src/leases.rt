ghost use Rattle.std.specs.Prelude.{◌≡◌, ◌<◌};

use mj_base::NoMemory;
use mj_counted::Steps;
use std::alloc::Global;
use std::marker::Brand;
use std::sync::ledger::{Blank, Ledger};
use std::test::Fail;

/// A call of both tables of leases.
#[derive(Debug, Drop)]
enum Act {
    Put(u64, u64),
    Remove(u64),
    Due(u64),
}

/// The flat table and the one over orders.
#[derive(Drop)]
struct Both {
    flat: mj_lease::Leases,
    counted: mj_due::Leases,
}

fn acts_alike<L: Ledger>(
    alloc: Global,
    both: &mut Both,
    act: &Act,
    steps: &mut Steps<L>,
) -> Result<bool, NoMemory> {
    match act {
        Act::Put(conn, deadline) => puts(both, *conn, *deadline, steps)?,
        Act::Remove(conn) => {
            both.flat.remove(*conn);
            both.counted.remove(*conn, steps);
        }
        Act::Due(now) => return are_due_alike(alloc, both, *now, steps),
    }
    Ok(true)
}

fn puts<L: Ledger>(
    both: &mut Both,
    conn: u64,
    deadline: u64,
    steps: &mut Steps<L>,
) -> Result<(), NoMemory> {
    both.flat.reserve(1)?;
    both.counted.reserve(1)?;
    both.flat.put(conn, deadline);
    both.counted.put(conn, deadline, steps);
    Ok(())
}

fn are_due_alike<L: Ledger>(
    alloc: Global,
    both: &Both,
    now: u64,
    steps: &mut Steps<L>,
) -> Result<bool, NoMemory> {
    let mut flat = vec![in alloc; 1]?;
    let mut counted = vec![in alloc; 1]?;
    both.flat.due(now, &mut flat)?;
    both.counted.due(now, &mut counted, steps)?;
    Ok(flat.as_slice() == counted.as_slice())
}

/// The number of the first act at which the two differ, or how many acts there are.
fn alike_until<L: Ledger>(alloc: Global, acts: &[Act], blank: Blank) -> Result<usize, NoMemory>
    requires name { blank.name ≡ L.name }
    requires parts { (blank.parts ≡ L.parts) × (0 < L.parts) }
{
    let mut steps = Steps::<L>::new(blank);
    let mut both = Both {
        flat: mj_lease::Leases::new(alloc),
        counted: mj_due::Leases::new(alloc),
    };
    for at in 0..acts.len() {
        if !acts_alike(alloc, &mut both, &acts[at], &mut steps)? {
            return Ok(at);
        }
    }
    Ok(acts.len())
}

#[test]
fn leases_end_alike(rt: HostRuntime) -> Result<(), Fail> {
    let acts = [
        Act::Put(5, 300),
        Act::Put(2, 200),
        Act::Put(9, 200),
        Act::Due(0),
        Act::Due(199),
        Act::Due(200),
        Act::Due(300),
        Act::Due(u64::MAX),
        Act::Put(2, 400),
        Act::Remove(9),
        Act::Remove(7),
        Act::Due(300),
        Act::Put(1, u64::MAX),
        Act::Due(400),
        Act::Due(u64::MAX),
    ];
    let until = alike_until::<Brand>(rt.alloc(), &acts, Blank::new(1))?;
    assert!(rt; until == acts.len(), "{until}");
    Ok(())
}
