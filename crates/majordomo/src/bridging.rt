//! `ADDRESS bridge NAME ADDRESS2 NAME2`: a service of the second broker, served at the first, over two TCP connections.
use mj_base::Sink;
use mj_bridge_prog::bridge;
use mj_link::SocketLink;
use std::alloc::Global;
use std::net::{Net, TcpListener, TcpStream};
use std::sync::Wait;
use std::time::Clock;

/// The status for want of memory.
const NO_MEMORY: u8 = 4;

/// Whether the words are for the bridge.
pub fn is_bridge(words: &Vec<String>) -> bool {
    match words.get(1) {
        Some(command) => command.as_str() == "bridge",
        None => false,
    }
}

/// Runs the bridge that the words ask for, between the addresses that are the first and the fourth of them. The answer is the
/// status that the program exits with.
pub fn run_bridge<R, K: Sink>(rt: R, alloc: Global, words: &Vec<String>, sink: &mut K) -> u8
where
    R: Net<Listener = TcpListener, Stream = TcpStream> + Clock + Wait + Copy,
{
    let near = String::from_str(alloc, word_at(words, 0));
    let far = String::from_str(alloc, word_at(words, 3));
    match (near, far) {
        (Ok(near), Ok(far)) => {
            let mut near = SocketLink::new(rt, near);
            let mut far = SocketLink::new(rt, far);
            bridge(&rt, alloc, words.as_slice(), &mut near, &mut far, sink)
        }
        _ => NO_MEMORY,
    }
}

fn word_at(words: &Vec<String>, at: usize) -> &str {
    match words.get(at) {
        Some(word) => word.as_str(),
        None => "",
    }
}
