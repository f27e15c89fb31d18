use mj_client_cmd::ClientCmd;
use mj_worker_cmd::WorkerCmd;

/// What a message is to the broker.
#[derive(Drop)]
pub enum Said {
    /// A client asks for a service.
    Asks(ClientCmd),
    /// A worker's command.
    Serves(WorkerCmd),
    /// Neither.
    Neither,
}
