ghost use Rattle.std.specs.Prelude.{◌≡◌, ◌≤◌};

use super::door::{Desk, Door, DoorFailed};
use super::socket::SocketSink;
use mj_base::StdSource;
use std::alloc::Global;
use std::io::ErrorKind;
use std::net::{Ipv4Addr, Net, SocketAddr, TcpListener, TcpStream};
use std::sync::Arc;
use std::time::{Clock, Duration};
use std::{io, thread};

/// How long a desk waits after an accept that failed, in milliseconds.
const PAUSE_MS: u64 = 100;

/// Listens on a TCP port of the system.
#[derive(Drop)]
pub struct StdDoor<R> {
    rt: R,
    alloc: Global,
    listener: Option<Arc<TcpListener, Global>>,
    faults: u64,
}

impl<R> StdDoor<R> {
    /// A door that doesn't listen.
    pub fn new(rt: R, alloc: Global) -> StdDoor<R> {
        StdDoor {
            rt,
            alloc,
            listener: None,
            faults: 0,
        }
    }

    /// The address at which it listens, with the port that the system gave.
    pub fn local_addr(&self) -> Option<SocketAddr> {
        match &self.listener {
            Some(listener) => listener.local_addr().ok(),
            None => None,
        }
    }
}

impl<R: Net<Listener = TcpListener, Stream = TcpStream> + Clock + Copy + Send + Drop + 'static> Door
    for StdDoor<R> {
    type Desk = StdDesk<R>;

    ghost faults = { λ d. d.faults };

    /// The address is a host and a port, as `127.0.0.1:5555`. It may begin with `tcp://`, and its host may be `*`.
    fn listen(&mut self, address: &str) -> Result<(), DoorFailed> {
        match shared(self.alloc, bind(&self.rt, address)) {
            Some(listener) => {
                self.listener = Some(listener);
                Ok(())
            }
            None => {
                self.faults = self.faults.saturating_add(1);
                Err(DoorFailed)
            }
        }
    }

    fn desk(&mut self) -> Result<StdDesk<R>, DoorFailed> {
        match another(&self.listener) {
            Some(listener) => Ok(StdDesk {
                rt: self.rt,
                alloc: self.alloc,
                listener,
                faults: 0,
            }),
            None => {
                self.faults = self.faults.saturating_add(1);
                Err(DoorFailed)
            }
        }
    }
}

/// Listens at the address.
fn bind<R: Net<Listener = TcpListener, Stream = TcpStream>>(
    rt: &R,
    address: &str,
) -> io::Result<TcpListener> {
    let address = address.strip_prefix("tcp://").unwrap_or(address);
    match address.strip_prefix("*:") {
        Some(port) => match port.parse::<u16>() {
            Ok(port) => TcpListener::bind(rt, (Ipv4Addr::UNSPECIFIED, port)),
            Err(_) => Err(io::Error::from(ErrorKind::InvalidInput)),
        },
        None => TcpListener::bind(rt, address),
    }
}

fn shared(alloc: Global, listener: io::Result<TcpListener>) -> Option<Arc<TcpListener, Global>> {
    Arc::new(alloc, listener.ok()?).ok()
}

fn another(listener: &Option<Arc<TcpListener, Global>>) -> Option<Arc<TcpListener, Global>> {
    match listener {
        Some(listener) => Arc::try_clone(listener).ok(),
        None => None,
    }
}

/// Accepts connections at the door's port, which all desks share.
#[derive(Drop)]
pub struct StdDesk<R> {
    rt: R,
    alloc: Global,
    listener: Arc<TcpListener, Global>,
    faults: u64,
}

impl<R: Clock> Desk for StdDesk<R> {
    type In = StdSource<TcpStream>;

    type Out = SocketSink;

    ghost faults = { λ d. d.faults };

    /// An accept that fails is made again after a pause, as at the limit of open files.
    fn accept(&mut self) -> Option<(StdSource<TcpStream>, SocketSink)> {
        for _turn in 0..u64::MAX {
            if let Some(ends) = accept_from(self.alloc, &self.listener) {
                return Some(ends);
            }
            self.faults = self.faults.saturating_add(1);
            thread::sleep(&self.rt, Duration::from_millis(PAUSE_MS));
        }
        self.faults = self.faults.saturating_add(1);
        None
    }
}

/// The two ends of the next connection.
fn accept_from(
    alloc: Global,
    listener: &TcpListener,
) -> Option<(StdSource<TcpStream>, SocketSink)> {
    let (stream, _peer) = listener.accept().ok()?;
    stream.set_nodelay(true).ok()?;
    let other = stream.try_clone().ok()?;
    Some((StdSource::new(stream), SocketSink::new(alloc, other)?))
}
