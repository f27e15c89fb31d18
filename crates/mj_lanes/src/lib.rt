//! Lanes between threads: one inbox of events that each lane's reader and writer and the ticker send into, and
//! an outlet of pieces for each lane.
#![tactic(auto)]

mod batch;
mod bell;
mod ends;
mod entry;
mod gathering;
mod handing;
mod hub_pass;
mod lane_pass;
mod making;
mod outlet;
mod piece_sink;
mod reading;
mod rule;
mod tick_pass;
mod ticking;
mod view;
mod writer_pass;
mod writing;

pub use gathering::gather;
pub use handing::{Left, is_done, write_left, write_ready};
pub use hub_pass::HubPass;
pub use lane_pass::LanePass;
pub use making::lanes_new;
pub use outlet::Item;
pub use piece_sink::{PieceSink, Progress};
pub use reading::read_loop;
pub use tick_pass::TickPass;
pub use ticking::{Clock, tick_loop};
pub use writer_pass::WriterPass;
pub use writing::write_loop;
