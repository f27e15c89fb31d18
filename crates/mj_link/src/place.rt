ghost use Rattle.std.specs.Prelude.{◌≡◌, ℕ, List, None};
ghost use Rattle.mj_base.specs.Linking.{LinkReads};
ghost use Rattle.mj_link.specs.Failing;

use mj_base::{LinkAnswer, LinkWrite};
use std::io::{ErrorKind, Read, Write};
use std::net::TcpStream;
use std::time::{Clock, Duration};
use std::{io, thread};

/// How long a read waits, and how long it is from a refused connection to its end, in milliseconds.
pub(crate) const WAIT_MS: u64 = 100;

/// How long a peer may take nothing of what is written to it, in seconds.
const WRITE_SECONDS: u64 = 10;

/// Where a link stands.
#[derive(Drop)]
pub(crate) enum Place {
    /// It isn't connected yet; the next read or write tries that.
    Fresh,
    Open(TcpStream),
    /// There was nobody to connect to.
    Refused,
    /// The peer ended it.
    Over,
}

/// Small pieces go out at once, and neither a read nor a write waits for long.
pub(crate) fn set_up(stream: TcpStream) -> Option<TcpStream> {
    stream.set_nodelay(true).ok()?;
    stream
        .set_read_timeout(Some(Duration::from_millis(WAIT_MS)))
        .ok()?;
    stream
        .set_write_timeout(Some(Duration::from_secs(WRITE_SECONDS)))
        .ok()?;
    Some(stream)
}

pub(crate) fn read_at<R: Clock>(rt: &R, place: &mut Place, into: &mut [u8]) -> LinkAnswer
    ensures { LinkReads None None result into.new }
{
    match place {
        Place::Open(stream) => read_from(stream, into),
        Place::Refused => {
            thread::sleep(rt, Duration::from_millis(WAIT_MS));
            LinkAnswer::End
        }
        Place::Fresh | Place::Over => LinkAnswer::End,
    }
}

fn read_from(stream: &mut TcpStream, into: &mut [u8]) -> LinkAnswer
    ensures { LinkReads None None result into.new }
{
    match stream.read(into) {
        Ok(0) => LinkAnswer::End,
        Ok(count) => LinkAnswer::Got(count),
        Err(error) => unread(&error),
    }
}

/// What a read comes to that gave an error.
fn unread(error: &io::Error) -> LinkAnswer
    ensures { (into : List ℕ) → LinkReads None None result into }
{
    match error.kind() {
        ErrorKind::WouldBlock | ErrorKind::TimedOut | ErrorKind::Interrupted => LinkAnswer::Idle,
        ErrorKind::ConnectionReset | ErrorKind::ConnectionAborted | ErrorKind::BrokenPipe => {
            LinkAnswer::End
        }
        _ => LinkAnswer::Failed,
    }
}

/// Writes to an open link. A link that has ended, or ends by it, loses the bytes.
pub(crate) fn write_at(place: &mut Place, octets: &[u8]) -> LinkWrite {
    let Place::Open(stream) = place else {
        return LinkWrite::Done;
    };
    let Err(error) = stream.write_all(octets) else {
        return LinkWrite::Done;
    };
    match error.kind() {
        ErrorKind::ConnectionReset | ErrorKind::ConnectionAborted | ErrorKind::BrokenPipe => {
            *place = Place::Over;
            LinkWrite::Done
        }
        _ => LinkWrite::Failed,
    }
}

pub(crate) fn is_failed_read(answer: LinkAnswer) -> bool
    ensures { result ≡ Failing.is_failed_read answer }
{
    match answer {
        LinkAnswer::Failed => true,
        LinkAnswer::Got(_) | LinkAnswer::Idle | LinkAnswer::End | LinkAnswer::NoMemory => false,
    }
}

pub(crate) fn is_failed_write(answer: LinkWrite) -> bool
    ensures { result ≡ Failing.is_failed_write answer }
{
    match answer {
        LinkWrite::Failed => true,
        LinkWrite::Done | LinkWrite::NoMemory => false,
    }
}
