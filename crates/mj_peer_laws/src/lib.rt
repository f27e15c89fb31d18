//! The laws of every run of the client's and the worker's end, in a user's words, proved over their definitions. The
//! functions do nothing.
#![tactic(auto)]

mod laws;

pub use laws::{
    a_client_asks_on_ready_links_and_hands_out_its_replies,
    a_client_gives_up_at_the_last_quiet_event, a_worker_answers_each_request_once,
    a_worker_gives_up_at_the_last_quiet_event,
};
