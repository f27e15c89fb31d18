ghost use Rattle.std.specs.Prelude.{◌≡◌, MatchOption, IfOk, drop, Some, None};
ghost use Rattle.mj_mmi.specs.Asking;

use mj_base::{Frames, Name, NoMemory};
use mj_ids::TicketId;
use std::alloc::Global;

/// What a body of `titanic.request` submits: the service, which isn't one of the broker's own, and the request's body.
/// None where the first frame is missing, is no service name, or begins with `mmi.` or `titanic.`.
pub fn read_submit(alloc: Global, body: &Frames) -> Result<Option<(Name, Frames)>, NoMemory>
    ensures { IfOk result (λ submitted. submitted ≡ Asking.read_submit body.now) }
{
    let Some(service) = submitted_service(body) else {
        return Ok(None);
    };
    let request = body.copy_from(1)?;
    Ok(Some((service, request)))
}

/// The id that a body of `titanic.reply` or `titanic.close` has as its only frame, in one of the forms of its text.
pub fn read_ticket(body: &Frames) -> Option<TicketId>
    ensures { result ≡ Asking.read_ticket body.now }
{
    if body.len() != 1 {
        return None;
    }
    TicketId::read(body.get(0)?)
}

fn submitted_service(body: &Frames) -> Option<Name>
    ensures { MatchOption result (Asking.read_submit body.now ≡ None) (λ service. Asking.read_submit body.now ≡ Some (service, drop 1 body.now)) }
{
    let service = Name::of(body.get(0)?)?;
    if service.reserved(true) {
        None
    } else {
        Some(service)
    }
}
