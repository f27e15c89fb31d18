//! The broker's lanes over sockets and threads: who listens, who starts the threads, what each of them does, and the
//! ports over the lanes that the broker serves.
#![tactic(auto)]

mod clock;
mod door;
mod fakes;
mod hosting;
mod lane_work;
mod ports;
mod slot;
mod socket;
mod spawner;
mod std_door;
mod unwritten;

pub use clock::StdClock;
pub use door::{Desk, Door, DoorFailed};
pub use fakes::{FakeDesk, FakeDoor, FakeSpawner};
pub use hosting::{HostFault, host};
pub use lane_work::Work;
pub use ports::NetPorts;
pub use slot::Slot;
pub use socket::SocketSink;
pub use spawner::{SpawnFailed, Spawner, StdSpawner};
pub use std_door::{StdDesk, StdDoor};
