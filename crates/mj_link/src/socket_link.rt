ghost use Rattle.std.specs.Prelude.{None};

use super::place::{Place, is_failed_read, is_failed_write, read_at, set_up, write_at};
use mj_base::{Link, LinkAnswer, LinkWrite, NoMemory};
use std::net::{Net, TcpListener, TcpStream};
use std::time::Clock;

/// A link to a TCP port. It tells nothing of what passed.
#[derive(Drop)]
pub struct SocketLink<R> {
    rt: R,
    address: String,
    place: Place,
    read_faults: u64,
    write_faults: u64,
}

impl<R> SocketLink<R> {
    /// A link to this address, a host and a port, as `127.0.0.1:5555`; it may begin with `tcp://`.
    pub fn new(rt: R, address: String) -> SocketLink<R> {
        SocketLink {
            rt,
            address,
            place: Place::Fresh,
            read_faults: 0,
            write_faults: 0,
        }
    }
}

impl<R: Net<Listener = TcpListener, Stream = TcpStream> + Clock> Link for SocketLink<R> {
    ghost told = { λ _. None };

    ghost read_faults = { λ l. l.read_faults };

    ghost write_faults = { λ l. l.write_faults };

    fn read(&mut self, into: &mut [u8]) -> LinkAnswer {
        connect(&self.rt, self.address.as_str(), &mut self.place);
        let answer = read_at(&self.rt, &mut self.place, into);
        if is_failed_read(answer) {
            self.read_faults = self.read_faults.saturating_add(1);
        }
        answer
    }

    fn write(&mut self, octets: &[u8]) -> LinkWrite {
        connect(&self.rt, self.address.as_str(), &mut self.place);
        let answer = write_at(&mut self.place, octets);
        if is_failed_write(answer) {
            self.write_faults = self.write_faults.saturating_add(1);
        }
        answer
    }

    fn reopen(&mut self) -> Result<(), NoMemory> {
        self.place = Place::Fresh;
        Ok(())
    }
}

/// Connects a fresh link.
fn connect<R: Net<Listener = TcpListener, Stream = TcpStream>>(
    rt: &R,
    address: &str,
    place: &mut Place,
) {
    if let Place::Fresh = place {
        *place = match open(rt, address) {
            Some(stream) => Place::Open(stream),
            None => Place::Refused,
        };
    }
}

fn open<R: Net<Listener = TcpListener, Stream = TcpStream>>(
    rt: &R,
    address: &str,
) -> Option<TcpStream> {
    let address = address.strip_prefix("tcp://").unwrap_or(address);
    set_up(TcpStream::connect(rt, address).ok()?)
}
