//! The laws of every run of the submitter, in a user's words, proved over its rules. The functions do nothing.
#![tactic(auto)]

mod laws;

pub use laws::{
    a_closing_message_follows_the_printed_reply, a_submission_may_break_off_at_any_moment,
    a_ticket_is_closed_only_behind_its_printed_reply,
};
