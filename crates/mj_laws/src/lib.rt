//! The laws of every run of the broker, in a user's words, proved over its definitions. The functions do nothing.
#![tactic(auto)]

mod laws;

pub use laws::{
    commands_grow, cuts_change_nothing, lists_are_lawful, nobody_waits_for_a_queued_service,
    notes_are_told, notes_come_with_a_failure, nothing_is_kept_without_a_store, numbers_and_lanes,
    one_request_at_a_time, replies_reach_their_asker, stores_go_on, tickets_are_conserved,
    tickets_wait_for_the_store,
};
