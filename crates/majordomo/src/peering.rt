//! `ADDRESS client V NAME` and `ADDRESS worker V NAME`: the program's own two peers, over a TCP connection.
use mj_base::{Sink, Source};
use mj_link::SocketLink;
use mj_peer_prog::peer;
use std::alloc::Global;
use std::net::{Net, TcpListener, TcpStream};
use std::sync::Wait;
use std::time::Clock;

/// The status for want of memory.
const NO_MEMORY: u8 = 4;

/// Whether the words are for the peers.
pub fn is_peer(words: &Vec<String>) -> bool {
    match words.get(1) {
        Some(command) => command.as_str() == "client" || command.as_str() == "worker",
        None => false,
    }
}

/// Runs the peer that the words ask for, at the address that is the first of them. The answer is the status that the program
/// exits with.
pub fn run_peer<R, S: Source, K: Sink>(
    rt: R,
    alloc: Global,
    words: &Vec<String>,
    source: &mut S,
    sink: &mut K,
) -> u8
where
    R: Net<Listener = TcpListener, Stream = TcpStream> + Clock + Wait + Copy,
{
    let address = match words.first() {
        Some(word) => word.as_str(),
        None => "",
    };
    match String::from_str(alloc, address) {
        Ok(address) => {
            let mut link = SocketLink::new(rt, address);
            peer(&rt, alloc, words.as_slice(), &mut link, source, sink)
        }
        Err(_) => NO_MEMORY,
    }
}
