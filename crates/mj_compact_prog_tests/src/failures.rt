use super::tests::{Outcome, Stops, no_stops, run, run_with, two_kept, two_tickets};
use std::alloc::Global;
use std::test::Fail;

/// A run over two tickets.
fn stopped(alloc: Global, stops: Stops) -> Result<Outcome, Fail> {
    run_with(
        alloc,
        "a compact b",
        two_tickets(alloc)?.as_slice(),
        b"",
        stops,
    )
}

fn is_disk_fault(made: &Outcome) -> bool {
    made.status == 5 && made.printed.as_slice() == b"fault disk\n".as_slice()
}

#[test]
fn each_call_of_the_old_disk_fails(rt: HostRuntime) -> Result<(), Fail> {
    let alloc = rt.alloc();
    for call in 0..8 {
        let mut stops = no_stops(alloc);
        stops.old = Some(call);
        let made = stopped(alloc, stops)?;
        assert!(rt; is_disk_fault(&made), "{call}");
        assert!(rt; made.old.as_slice() == two_tickets(alloc)?.as_slice());
    }
    Ok(())
}

/// Before the last two calls, which finish the new file, it is no store.
#[test]
fn each_call_of_the_new_disk_fails(rt: HostRuntime) -> Result<(), Fail> {
    let alloc = rt.alloc();
    for call in 0..18 {
        let mut stops = no_stops(alloc);
        stops.new = Some(call);
        let made = stopped(alloc, stops)?;
        assert!(rt; is_disk_fault(&made), "{call}");
        if call < 16 && made.new.len() > 17 {
            let again = run(alloc, made.new.as_slice(), b"")?;
            assert!(rt; again.printed.as_slice() == b"fault store not-a-store\n".as_slice());
        }
    }
    Ok(())
}

/// A line that can't be printed changes no status but that of `done N`.
#[test]
fn the_sink_fails(rt: HostRuntime) -> Result<(), Fail> {
    let alloc = rt.alloc();
    let mut stops = no_stops(alloc);
    stops.writes.push(0)?;
    let made = stopped(alloc, stops)?;
    assert!(rt; made.status == 7 && made.printed.is_empty());
    assert!(rt; made.new.as_slice() == two_kept(alloc)?.as_slice());

    let mut stops = no_stops(alloc);
    stops.writes.push(0)?;
    let refused = run_with(alloc, "a compact b", &[0; 18], b"", stops)?;
    assert!(rt; refused.status == 3 && refused.printed.is_empty());
    Ok(())
}
