//! `FILE ship ADDRESS` and `FILE follow ADDRESS`: a copy of a stopped store's file, over a TCP connection. The first listens,
//! the second connects.
use mj_base::{NoMemory, Sink};
use mj_copy_prog::{follow, ship};
use mj_disk::FileDisk;
use mj_link::{ListenLink, SocketLink};
use std::alloc::Global;
use std::net::{Net, TcpListener, TcpStream};
use std::os::unix::fs::FileExt;
use std::rt::Files;
use std::sync::Wait;
use std::time::Clock;

/// The status for want of memory.
const NO_MEMORY: u8 = 4;

/// Whether the words are for one of the two.
pub fn is_copying(words: &Vec<String>) -> bool {
    match words.get(1) {
        Some(command) => command.as_str() == "ship" || command.as_str() == "follow",
        None => false,
    }
}

/// Runs the command over the file that the first word names, which isn't opened before the words are read, and the address
/// that is the third. The answer is the status that the program exits with.
pub fn run_copying<R, K: Sink>(rt: R, alloc: Global, words: &Vec<String>, sink: &mut K) -> u8
where
    R: Net<Listener = TcpListener, Stream = TcpStream> + Clock + Wait + Files + Drop + Copy,
    R::File: FileExt,
{
    let (Ok(file), Ok(address)) = (word_at(alloc, words, 0), word_at(alloc, words, 2)) else {
        return NO_MEMORY;
    };
    let mut disk = FileDisk::new(rt, file);
    if is_shipping(words) {
        let mut link = ListenLink::new(rt, alloc, address);
        return ship(&rt, alloc, words.as_slice(), &mut link, &mut disk, sink);
    }
    let mut link = SocketLink::new(rt, address);
    follow(&rt, alloc, words.as_slice(), &mut link, &mut disk, sink)
}

fn is_shipping(words: &Vec<String>) -> bool {
    match words.get(1) {
        Some(command) => command.as_str() == "ship",
        None => false,
    }
}

/// The word at this place, or an empty one where there are fewer.
fn word_at(alloc: Global, words: &Vec<String>, place: usize) -> Result<String, NoMemory> {
    let word = match words.get(place) {
        Some(word) => word.as_str(),
        None => "",
    };
    Ok(String::from_str(alloc, word)?)
}
