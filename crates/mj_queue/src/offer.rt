use crate::request::Origin;
use mj_base::Name;

/// Who would get which request: a worker, by its connection's number, the service that it offers, and who asks.
#[derive(Drop)]
pub struct Offer {
    pub worker: u64,
    pub service: Name,
    pub origin: Origin,
}
