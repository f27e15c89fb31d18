use mj_queue::Request;

/// A request that a worker holds, with an empty body: the worker has the body.
#[derive(Drop)]
pub struct Held {
    /// The number of the worker's connection.
    pub worker: u64,
    pub request: Request,
}
