use mj_base::Name;

/// A worker, by its connection's number, and the service that it offers.
#[derive(Drop)]
pub struct Waiter {
    pub worker: u64,
    pub service: Name,
}
