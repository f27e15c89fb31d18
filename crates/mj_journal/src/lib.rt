//! A file of payloads that grows at its end, a gate in front of each: a crash at any moment leaves the payloads
//! from before an append, or these and the new one.
#![tactic(auto)]

mod fault;
mod header;
mod journal;
mod laws;
mod making;
mod opening;

pub use fault::{AppendFault, OpenFault};
pub use journal::Journal;
pub use laws::{
    an_opening_gives_the_list, files_stand_once, headers_say_their_base, no_store_in_the_making,
    payloads_stand_at_their_places, short_files_have_no_payloads, texts_stand,
    whole_files_are_read,
};
pub use making::{MakeFault, Making};
pub use opening::Opening;
