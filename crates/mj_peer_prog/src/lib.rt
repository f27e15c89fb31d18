//! The commands `client` and `worker`: their words, their runs over a link, and the statuses that they end with.
#![tactic(auto)]

mod ending;
mod finish;
mod run;
mod status;
mod task;
mod top_call;
mod words;

pub use task::{Asking, Serving, Task};
pub use top_call::peer;
