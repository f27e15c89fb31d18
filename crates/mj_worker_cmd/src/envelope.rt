//! What a request and the replies to it carry: an address, an empty frame and the body.
ghost use Rattle.std.specs.Prelude.{◌≡◌, ◌≤◌, ◌++◌, ◌∷◌, [], drop, IfOk, OnOk};
ghost use Rattle.mj_worker_cmd.specs.WorkerReading.{envelope_of};

use mj_base::{Frames, NoMemory, Octets};
use std::alloc::Global;

#[derive(Drop)]
pub(crate) struct Envelope {
    pub(crate) address: Octets,
    pub(crate) body: Frames,
}

/// The frames from this place on as an envelope, or None where they are none.
pub(crate) fn read_envelope(
    alloc: Global,
    message: &Frames,
    at: usize,
) -> Result<Option<Envelope>, NoMemory>
    requires { at ≤ 3 }
    ensures { IfOk result (λ r. r ≡ envelope_of (drop at message.now)) }
{
    let Some(sender) = message.get(at) else {
        return Ok(None);
    };
    let next = at + 1;
    let Some(empty) = message.get(next) else {
        return Ok(None);
    };
    if !empty.is_empty() {
        return Ok(None);
    }
    let mut address = Octets::new(alloc);
    address.push_all(sender)?;
    let body = message.copy_from(next + 1)?;
    Ok(Some(Envelope { address, body }))
}

pub(crate) fn push_envelope(
    address: &Octets,
    body: &Frames,
    out: &mut Frames,
) -> Result<(), NoMemory>
    ensures { OnOk result (out.new ≡ out.old ++ (address.now ∷ [] ∷ body.now)) }
{
    out.push(address.as_slice())?;
    out.push(b"")?;
    out.append_from(body, 0)
}
