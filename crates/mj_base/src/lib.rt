//! The words that every layer speaks: bytes, frames, service names, limits, events, and the source and
//! sink of a run.
#![tactic(auto)]

mod event;
mod frames;
mod limits;
mod link;
mod memory;
mod memory_sink;
mod memory_source;
mod name;
mod octets;
mod reason;
mod script_link;
mod sink;
mod source;
mod std_sink;
mod std_source;
mod version;

pub use event::{Event, Note, Out};
pub use frames::Frames;
pub use limits::Limits;
pub use link::{Link, LinkAnswer, LinkEntry, LinkEvent, LinkWrite};
pub use memory::NoMemory;
pub use memory_sink::MemorySink;
pub use memory_source::MemorySource;
pub use name::Name;
pub use octets::Octets;
pub use reason::Reason;
pub use script_link::ScriptLink;
pub use sink::{Sink, WriteAnswer};
pub use source::{ReadAnswer, Source};
pub use std_sink::StdSink;
pub use std_source::StdSource;
pub use version::Version;
