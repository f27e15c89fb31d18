ghost use Rattle.std.specs.Prelude.{◌≤◌, ◌<◌};

use mj_base::{Name, Octets};
use mj_peer::ClientEnd;
use mj_submit::Progress;

/// A client that submits each line as a ticket, fetches and prints the reply, and closes the ticket. After a want of
/// memory it is given up; that counts a number that doesn't fit 64 bits, too.
#[derive(Drop)]
pub struct Submitter {
    pub(crate) name: Name,
    pub(crate) tries: u32,
    pub(crate) wait: u32,
    pub(crate) polls: u32,
    pub(crate) progress: Progress,
    /// The lines that the file had as closed at the start.
    pub(crate) had: u64,
    /// The lines read, and the one at work.
    pub(crate) lines: u64,
    pub(crate) line: Option<Octets>,
    /// The end of the present call.
    pub(crate) client: ClientEnd,
    /// Whether there was no call yet.
    pub(crate) first: bool,
    /// The answers `300` for the line at work, and the quiet events since the last one, while it is waited.
    pub(crate) polled: u32,
    pub(crate) paused: Option<u64>,
    pub(crate) over: bool,
    ghost tried: { 1 ≤ tries },
    ghost waits: { 1 ≤ wait },
    ghost polling: { polled < polls },
}
