//! A copy of a stopped store: what its two ends say to each other, and what each does. The ends are told what their
//! link gave, and say what is to be done; they wait for nobody and reach nothing outside.
#![tactic(auto)]

mod awaits;
mod follow;
mod follow_act;
mod message;
mod phase;
mod ship;
mod ship_act;
mod write;

pub use awaits::Awaits;
pub use follow::Follow;
pub use follow_act::{FollowAct, FollowActs};
pub use message::{Found, Said, find};
pub use phase::Phase;
pub use ship::Ship;
pub use ship_act::{ShipAct, ShipActs};
pub use write::{base_octets, end_octets, have_octets, send_octets};
