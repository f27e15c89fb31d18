//! `PLACE broker ADDRESS`: the broker over the system's sockets, with its lanes in threads of their own.
ghost use Rattle.std.specs.Prelude.{◌≡◌, ◌≤◌, OnErr};
ghost use Rattle.mj_base.specs.Rising.{Rose};
ghost use Rattle.mj_net.specs.Passing.{AreNewPorts};

use mj_base::{NoMemory, Octets, Sink};
use mj_disk::{Disk, FileDisk, MemoryDisk};
use mj_host::broker;
use mj_net::{
    Door, DoorFailed, HostFault, NetPorts, SocketSink, StdClock, StdDesk, StdDoor, StdSpawner,
    Work, host,
};
use std::alloc::Global;
use std::io::Write;
use std::net::{Net, TcpListener, TcpStream};
use std::os::unix::fs::FileExt;
use std::random::RandomSource;
use std::rt::Files;
use std::sync::Wait;
use std::thread;
use std::thread::Threads;
use std::time::Clock;

/// The status for want of memory.
const NO_MEMORY: u8 = 4;

/// The status of a host that can't listen or start its threads.
const NO_HOST: u8 = 9;

/// A door that writes where it listens, as `listening HOST:PORT`.
#[derive(Drop)]
struct LoudDoor<R, E> {
    door: StdDoor<R>,
    errors: E,
}

impl<
    R: Net<Listener = TcpListener, Stream = TcpStream> + Clock + Copy + Send + Drop + 'static,
    E: Write,
> Door for LoudDoor<R, E> {
    type Desk = StdDesk<R>;

    ghost faults = { λ d. ⟦<StdDoor<R> as Door>⟧.faults d.door };

    fn listen(&mut self, address: &str) -> Result<(), DoorFailed> {
        self.door.listen(address)?;
        if let Some(local) = self.door.local_addr() {
            let _ = writeln!(self.errors, "listening {local}");
        }
        Ok(())
    }

    fn desk(&mut self) -> Result<StdDesk<R>, DoorFailed> {
        self.door.desk()
    }
}

/// Serves as the words say, which are those of the broker, with these numbers of lanes and milliseconds: with the file of a
/// store as the first word names it, or without one. The answer is the status that the program exits with.
pub fn serve_words<R, K: Sink, E: Write + Drop>(
    rt: R,
    alloc: Global,
    words: &Vec<String>,
    numbers: (u32, u64),
    out: &mut K,
    errors: E,
) -> u8
where
    R: Net<Listener = TcpListener, Stream = TcpStream>
        + Clock
        + Threads
        + Wait
        + Files
        + RandomSource
        + Copy
        + Send
        + Drop
        + 'static,
    R::File: FileExt,
    requires { (1 ≤ numbers.0) × (numbers.0 ≤ 64) }
{
    match words.first() {
        Some(place) if place.as_str() != "-" => match place.clone() {
            Ok(path) => {
                let mut disk = FileDisk::new(rt, path);
                serve_over(rt, alloc, words, numbers, &mut disk, out, errors)
            }
            Err(_) => NO_MEMORY,
        },
        _ => match MemoryDisk::new(alloc, Octets::new(alloc), 0, Vec::new(alloc), None) {
            Ok(mut disk) => serve_over(rt, alloc, words, numbers, &mut disk, out, errors),
            Err(NoMemory) => NO_MEMORY,
        },
    }
}

/// Serves over this disk.
fn serve_over<R, D: Disk, K: Sink, E: Write + Drop>(
    rt: R,
    alloc: Global,
    words: &Vec<String>,
    numbers: (u32, u64),
    disk: &mut D,
    out: &mut K,
    errors: E,
) -> u8
where
    R: Net<Listener = TcpListener, Stream = TcpStream>
        + Clock
        + Threads
        + Wait
        + RandomSource
        + Copy
        + Send
        + Drop
        + 'static,
    requires { (1 ≤ numbers.0) × (numbers.0 ≤ 64) }
{
    let (lanes, until) = numbers;
    let mut seed = [0; 32];
    if rt.fill_bytes(&mut seed).is_err() {
        return NO_MEMORY;
    }
    let address = match words.get(2) {
        Some(address) => address.as_str(),
        None => "",
    };
    let mut door = LoudDoor {
        door: StdDoor::new(rt, alloc),
        errors,
    };
    let mut spawner = StdSpawner::new(|work: Work<R, StdDesk<R>, StdClock<R>>| {
        thread::spawn(&rt, move || work.run()).is_ok()
    });
    let hub = |ports: &mut NetPorts<R, SocketSink>| -> u8
        requires { AreNewPorts lanes ports.old × (lanes ≤ 64) }
    {
        // The condition speaks of the lanes.
        let _ = &lanes;
        broker(alloc, words.as_slice(), seed, ports, disk, out)
    };
    let answer = host(
        rt,
        alloc,
        address,
        lanes,
        until,
        &mut door,
        &mut spawner,
        StdClock::new(rt),
        hub,
    );
    match answer {
        Ok(status) => status,
        Err(HostFault::NoMemory) => NO_MEMORY,
        Err(HostFault::Listen | HostFault::Spawn) => {
            let _ = out.write(b"fault host\n");
            NO_HOST
        }
    }
}
