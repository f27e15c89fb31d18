ghost use Rattle.std.specs.Prelude.{◌≡◌, None};

use super::place::{Place, WAIT_MS, is_failed_read, is_failed_write, read_at, set_up, write_at};
use mj_base::{Link, LinkAnswer, LinkWrite, NoMemory};
use std::alloc::Global;
use std::io::ErrorKind;
use std::net::{Net, TcpListener, TcpStream};
use std::time::{Clock, Duration};
use std::{io, thread};

/// A link to whoever connects to a TCP port, one connection after the other: opened anew, it takes the next one. What is
/// written before somebody has connected is kept for that one. It tells nothing of what passed.
#[derive(Drop)]
pub struct ListenLink<R> {
    rt: R,
    address: String,
    listener: Option<TcpListener>,
    place: Place,
    /// What was written before the connection was there.
    early: Vec<u8>,
    read_faults: u64,
    write_faults: u64,
}

impl<R> ListenLink<R> {
    /// A link at this address, a host and a port, as `127.0.0.1:5555`; it may begin with `tcp://`.
    pub fn new(rt: R, alloc: Global, address: String) -> ListenLink<R> {
        ListenLink {
            rt,
            address,
            listener: None,
            place: Place::Fresh,
            early: Vec::new(alloc),
            read_faults: 0,
            write_faults: 0,
        }
    }
}

impl<R: Net<Listener = TcpListener, Stream = TcpStream> + Clock> ListenLink<R> {
    /// Takes a connection, where there is none yet and one waits, and gives it what was written before.
    fn take(&mut self)
        ensures reads { self.new.read_faults ≡ self.old.read_faults }
        ensures writes { self.new.write_faults ≡ self.old.write_faults }
    {
        if let Place::Fresh = self.place {
            self.place = next_place(&self.rt, self.address.as_str(), &mut self.listener);
            let _ = write_at(&mut self.place, self.early.as_slice());
        }
    }
}

impl<R: Net<Listener = TcpListener, Stream = TcpStream> + Clock> Link for ListenLink<R> {
    ghost told = { λ _. None };

    ghost read_faults = { λ l. l.read_faults };

    ghost write_faults = { λ l. l.write_faults };

    fn read(&mut self, into: &mut [u8]) -> LinkAnswer {
        self.take();
        if let Place::Fresh = self.place {
            thread::sleep(&self.rt, Duration::from_millis(WAIT_MS));
            return LinkAnswer::Idle;
        }
        let answer = read_at(&self.rt, &mut self.place, into);
        if is_failed_read(answer) {
            self.read_faults = self.read_faults.saturating_add(1);
        }
        answer
    }

    fn write(&mut self, octets: &[u8]) -> LinkWrite {
        self.take();
        if let Place::Fresh = self.place {
            return match self.early.extend_from_slice(octets) {
                Ok(()) => LinkWrite::Done,
                Err(_) => LinkWrite::NoMemory,
            };
        }
        let answer = write_at(&mut self.place, octets);
        if is_failed_write(answer) {
            self.write_faults = self.write_faults.saturating_add(1);
        }
        answer
    }

    fn reopen(&mut self) -> Result<(), NoMemory> {
        self.place = Place::Fresh;
        self.early.clear();
        Ok(())
    }
}

/// Where a link stands that has looked for the next connection. A port that can't be listened at is a refused connection.
fn next_place<R: Net<Listener = TcpListener, Stream = TcpStream>>(
    rt: &R,
    address: &str,
    listener: &mut Option<TcpListener>,
) -> Place {
    if listener.is_none() {
        *listener = listen(rt, address).ok();
    }
    match listener {
        Some(listener) => accepted(listener.accept()),
        None => Place::Refused,
    }
}

/// Listens at the address, in such a way that nobody waits for a connection.
fn listen<R: Net<Listener = TcpListener, Stream = TcpStream>>(
    rt: &R,
    address: &str,
) -> io::Result<TcpListener> {
    let address = address.strip_prefix("tcp://").unwrap_or(address);
    let listener = TcpListener::bind(rt, address)?;
    listener.set_nonblocking(true)?;
    Ok(listener)
}

/// What an accept comes to: nobody may have connected yet.
fn accepted(taken: io::Result<(TcpStream, std::net::SocketAddr)>) -> Place {
    match taken {
        Ok((stream, _peer)) => match set_up(stream) {
            Some(stream) => Place::Open(stream),
            None => Place::Refused,
        },
        Err(error) if error.kind() == ErrorKind::WouldBlock => Place::Fresh,
        Err(_) => Place::Refused,
    }
}
