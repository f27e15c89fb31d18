//! The Majordomo machine as definitions: what a broker is at each moment, and what each event does to it.
#![tactic(auto)]

mod connection;
mod held;
mod laws;
mod lengths;
mod said;
mod worked;

pub use connection::{Connection, Registration, Role, Voice};
pub use held::Held;
pub use laws::{a_run_is_its_front_and_its_rest, steps_are_the_run, worked_runs_in_steps};
pub use lengths::Lengths;
pub use said::Said;
pub use worked::{the_worked_runs, the_worked_runs_with_a_store};
