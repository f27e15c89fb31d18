//! Which workers wait for which services, and which requests wait for a worker, in rows that are found without
//! a walk.
#![tactic(auto)]

mod asking;
mod counts;
mod crew;
mod desks;
mod ends_kept;
mod floor;
mod hall;
mod kept;
mod labels;
mod lasts;
mod leaving;
mod offered;
mod ready;
mod room;
mod serving;
mod workplace;

pub use asking::{last_of, request_in, request_out};
pub use counts::{busied, count_in, count_out, is_of_client, is_past, weighs_at_most};
pub use crew::{shut_after, waiting_worker, worker_goes, worker_waits};
pub use desks::{open, shut};
pub use ends_kept::{ends, ends_with, ends_without};
pub use floor::{request_comes, request_leaves};
pub use hall::Hall;
pub use kept::{Queued, Worker};
pub use labels::number_all;
pub use leaving::{Whose, last_whose, request_goes};
pub use ready::{mark, mark_again, unmark};
pub use room::{can_count, is_awaited, room_for_request};
pub use serving::{worker_in, worker_of, worker_out};
pub use workplace::{worker_comes, worker_leaves};
