//! Two tools: `show` prints what a stream says, `help` names the commands.
#![tactic(auto)]

mod halt;
mod helping;
mod lines;
mod pieces;
mod printing;
mod showing;

pub use helping::help;
pub use showing::show;
