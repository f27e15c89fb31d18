ghost use Rattle.std.specs.Prelude.{◌≡◌, ◌≤◌, None, length};

use mj_base::{Octets, Sink, WriteAnswer};
use mj_lanes::{PieceSink, Progress};
use std::alloc::Global;
use std::io::Write;
use std::net::{Shutdown, TcpStream};
use std::time::Duration;

/// How long a peer may take nothing of what is written to it, in seconds.
const WRITE_SECONDS: u64 = 10;

/// How long a write that shouldn't wait waits at most, in milliseconds; the system rounds it up to a tick of its clock.
const NOW_MS: u64 = 1;

/// The end of a connection to which the broker's pieces go. It tells nothing of what was written.
pub struct SocketSink {
    stream: TcpStream,
    /// Room in which pieces are joined.
    room: Vec<u8>,
    /// Writes may wait.
    patient: bool,
    faults: u64,
}

impl SocketSink {
    /// A sink to this connection, whose writes don't wait yet; None where the system refuses that.
    pub fn new(alloc: Global, stream: TcpStream) -> Option<SocketSink> {
        stream
            .set_write_timeout(Some(Duration::from_millis(NOW_MS)))
            .ok()?;
        Some(SocketSink {
            stream,
            room: Vec::new(alloc),
            patient: false,
            faults: 0,
        })
    }

    /// From now on a write waits, for ten seconds at most.
    fn wait(&mut self)
        ensures { self.new.faults ≡ self.old.faults }
    {
        if !self.patient {
            self.patient = true;
            let _ = self
                .stream
                .set_write_timeout(Some(Duration::from_secs(WRITE_SECONDS)));
        }
    }
}

impl Drop for SocketSink {
    /// Ends the connection both ways, so that its reader is told too.
    fn drop(self) {
        let SocketSink {
            stream,
            room: _,
            patient: _,
            faults: _,
        } = self;
        let _ = stream.shutdown(Shutdown::Both);
    }
}

impl Sink for SocketSink {
    ghost written = { λ _. None };

    ghost faults = { λ s. s.faults };

    ghost wants = { λ _. 0 };

    fn write(&mut self, octets: &[u8]) -> WriteAnswer {
        self.wait();
        match self.stream.write_all(octets) {
            Ok(()) => WriteAnswer::Done,
            Err(_) => {
                self.faults = self.faults.saturating_add(1);
                WriteAnswer::Failed
            }
        }
    }
}

impl PieceSink for SocketSink {
    /// Writes the pieces joined, by one call of the system.
    fn write_now(&mut self, pieces: &[Octets]) -> Progress {
        if let [piece] = pieces {
            return reached(pieces, write_some(&mut self.stream, piece.as_slice()));
        }
        join(pieces, &mut self.room);
        reached(pieces, write_some(&mut self.stream, self.room.as_slice()))
    }
}

/// Joins the pieces, as far as there is memory.
fn join(pieces: &[Octets], room: &mut Vec<u8>) {
    room.clear();
    for piece in pieces {
        if room.extend_from_slice(piece.as_slice()).is_err() {
            return;
        }
    }
}

/// Writes some of these bytes, and says how many; none where the system takes none.
fn write_some(stream: &mut TcpStream, octets: &[u8]) -> usize {
    if octets.is_empty() {
        return 0;
    }
    match stream.write(octets) {
        Ok(count) => count,
        Err(_) => 0,
    }
}

/// How far so many bytes of the pieces reach.
fn reached(pieces: &[Octets], count: usize) -> Progress
    ensures { result.whole ≤ length pieces.now }
{
    let mut left = count;
    for whole in 0..pieces.len() {
        let size = pieces[whole].len();
        if left < size {
            return Progress { whole, at: left };
        }
        left -= size;
    }
    Progress {
        whole: pieces.len(),
        at: 0,
    }
}
