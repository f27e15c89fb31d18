ghost use Rattle.std.specs.Prelude.{◌≤◌};

use mj_base::MemorySink;
use mj_net::{FakeDesk, FakeDoor, FakeSpawner, HostFault, NetPorts, Spawner, StdClock, Work, host};
use std::alloc::{AllocError, Global};
use std::sync::Wait;
use std::test::Fail;
use std::time::Clock;

type FakeWork<R> = Work<R, FakeDesk, StdClock<R>>;

fn list(alloc: Global, numbers: &[u64]) -> Result<Vec<u64>, AllocError> {
    let mut list = Vec::new(alloc);
    list.extend_from_slice(numbers)?;
    Ok(list)
}

/// What a host over fakes answers, whose hub answers 3, and how many works were started. The door's and the spawner's
/// calls of these numbers fail.
fn host_of<R: Wait + Clock + Copy + Drop>(
    rt: R,
    alloc: Global,
    lanes: u32,
    door_fails: &[u64],
    spawner_fails: &[u64],
) -> Result<(Result<u8, HostFault>, u64), AllocError>
    requires { (1 ≤ lanes) × (lanes ≤ 64) }
{
    let mut door = FakeDoor::new(list(alloc, door_fails)?);
    let mut spawner = FakeSpawner::new(list(alloc, spawner_fails)?);
    let answer = host(
        rt,
        alloc,
        "127.0.0.1:0",
        lanes,
        0,
        &mut door,
        &mut spawner,
        StdClock::new(rt),
        |_ports: &mut NetPorts<R, MemorySink>| 3,
    );
    let started = Spawner::<FakeWork<R>>::started(&spawner);
    Ok((answer, started))
}

#[test]
fn two_lanes_take_five_works(rt: HostRuntime) -> Result<(), Fail> {
    assert!(rt; host_of(rt, rt.alloc(), 2, &[], &[])? == (Ok(3), 5));
    assert!(rt; host_of(rt, rt.alloc(), 64, &[], &[])? == (Ok(3), 129));
    Ok(())
}

#[test]
fn a_start_that_fails_ends_the_host(rt: HostRuntime) -> Result<(), Fail> {
    assert!(rt; host_of(rt, rt.alloc(), 2, &[], &[0])? == (Err(HostFault::Spawn), 0));
    assert!(rt; host_of(rt, rt.alloc(), 2, &[], &[4])? == (Err(HostFault::Spawn), 4));
    Ok(())
}

#[test]
fn a_door_that_fails_ends_the_host(rt: HostRuntime) -> Result<(), Fail> {
    assert!(rt; host_of(rt, rt.alloc(), 2, &[0], &[])? == (Err(HostFault::Listen), 0));
    assert!(rt; host_of(rt, rt.alloc(), 2, &[2], &[])? == (Err(HostFault::Listen), 0));
    Ok(())
}
