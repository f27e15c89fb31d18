//! Single frames of a message.
ghost use Rattle.std.specs.Prelude.{◌≡◌, ◌+◌, drop, MatchOption};
ghost use Rattle.mj_client_cmd.specs.ClientReading.{named};

use mj_base::{Frames, Name};

/// The service name at this place.
pub(crate) fn name_at(message: &Frames, at: usize) -> Option<Name>
    ensures { MatchOption result (named (drop at message.now) ≡ None) (λ name. named (drop at message.now) ≡ Some (name, drop (at + 1) message.now)) }
{
    Name::of(message.get(at)?)
}
