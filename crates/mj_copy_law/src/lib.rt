//! What holds of a copy of a stopped store, whatever the links and the crashes do, proved once and for all.
#![tactic(auto)]

mod laws;
mod worked;

pub use laws::{cuts_change_nothing, messages_are_read, the_copy_is_a_prefix};
pub use worked::the_worked_copies;
