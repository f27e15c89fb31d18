use mj_queue::{Request, Waiter};

/// A request, its label, and the row of its service. Labels rise along the list of requests.
#[derive(Drop)]
pub struct Queued {
    pub request: Request,
    pub label: u64,
    pub desk: usize,
}

/// A worker, and the row of its service.
#[derive(Drop)]
pub struct Worker {
    pub waiter: Waiter,
    pub desk: usize,
    pub busy: bool,
}
