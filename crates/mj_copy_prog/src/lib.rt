//! The commands `ship` and `follow`: their words, their runs over a link and a file, and the statuses that they end with.
#![tactic(auto)]

mod finish;
mod following;
mod line;
mod refusal;
mod shipping;
mod status;
mod words;

pub use following::follow;
pub use shipping::ship;
