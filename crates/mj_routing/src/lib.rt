//! What routes between clients and workers: the connections, who waits for what, what workers hold, and when leases
//! end. Each method is an act of the machine's definitions; the streams of bytes stand above.
#![tactic(auto)]

mod connections;
mod deadlines;
mod hall;
mod held;
mod leases;
mod routing;
mod said;
mod services;
mod text;
mod tick;

pub use connections::Standing;
pub use routing::Routing;
pub use said::read_message;
pub use services::is_titanic;
pub use text::{is_address, order_octets, reply_octets};
