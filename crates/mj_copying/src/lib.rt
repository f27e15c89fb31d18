//! What the two ends of a copy say, done over a link and a disk.
#![tactic(auto)]

mod following;
mod reading;
mod shipping;
mod stop;
mod writing;

pub use following::{FollowEnding, FollowStop, run_follow};
pub use shipping::{ShipEnding, run_ship};
pub use stop::Stop;
