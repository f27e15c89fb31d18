ghost use Rattle.std.specs.Prelude.{◌≡◌, IfOk};
ghost use Rattle.mj_machine.specs.MessageStep.{said_in};

use mj_base::{Frames, NoMemory};
use mj_client_cmd::read_client;
use mj_machine::Said;
use mj_worker_cmd::read_worker;
use std::alloc::Global;

/// What this message is to the broker.
pub fn read_message(alloc: Global, message: &Frames) -> Result<Said, NoMemory>
    ensures { IfOk result (λ said. said ≡ said_in message.now) }
{
    if let Some(cmd) = read_client(alloc, message)? {
        return Ok(Said::Asks(cmd));
    }
    match read_worker(alloc, message)? {
        Some(cmd) => Ok(Said::Serves(cmd)),
        None => Ok(Said::Neither),
    }
}
