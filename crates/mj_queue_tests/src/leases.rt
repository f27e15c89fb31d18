use mj_base::NoMemory;
use mj_lease::Leases;
use std::alloc::Global;
use std::test::Fail;

/// The connections that are due at this moment.
fn due_at(alloc: Global, leases: &Leases, now: u64) -> Result<Vec<u64>, NoMemory> {
    let mut due = Vec::new(alloc);
    leases.due(now, &mut due)?;
    Ok(due)
}

/// Three leases: of 5 until 300, of 2 until 200, and of 9 until 200.
fn three_leases(alloc: Global) -> Result<Leases, NoMemory> {
    let mut leases = Leases::new(alloc);
    leases.reserve(3)?;
    leases.put(5, 300);
    leases.put(2, 200);
    leases.put(9, 200);
    Ok(leases)
}

#[test]
fn leases_end_at_their_deadline_by_rising_number(rt: HostRuntime) -> Result<(), Fail> {
    let leases = three_leases(rt.alloc())?;
    for (now, due) in [
        (0, [].as_slice()),
        (199, [].as_slice()),
        (200, [2, 9].as_slice()),
        (299, [2, 9].as_slice()),
        (300, [2, 5, 9].as_slice()),
        (u64::MAX, [2, 5, 9].as_slice()),
    ] {
        let found = due_at(rt.alloc(), &leases, now)?;
        assert!(rt; found.as_slice() == due, "{now}");
    }
    Ok(())
}

#[test]
fn a_deadline_is_set_anew_and_taken_out(rt: HostRuntime) -> Result<(), Fail> {
    let mut leases = three_leases(rt.alloc())?;
    leases.reserve(1)?;
    leases.put(2, 400);
    leases.remove(9);
    leases.remove(7);
    let mut due = vec![in rt.alloc(); 1]?;
    leases.due(300, &mut due)?;
    assert!(rt; due.as_slice() == [1, 5].as_slice());
    let later = due_at(rt.alloc(), &leases, 400)?;
    assert!(rt; later.as_slice() == [2, 5].as_slice());
    Ok(())
}
