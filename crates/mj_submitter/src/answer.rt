//! What an answer says.
ghost use Rattle.std.specs.Prelude.{◌≡◌, ◌∷◌, [], IfOk};
ghost use Rattle.std.specs.List.{list_all};
ghost use Rattle.mj_submit.specs.SubmitRules;
ghost use Rattle.mj_submit.specs.SubmitRules.{behind_code, id_answered, is_code};

use mj_base::{Frames, NoMemory};
use mj_ids::TicketId;

/// Whether its first frame is this.
pub(crate) fn has_code(body: &Frames, code: &[u8]) -> bool
    ensures { result ≡ is_code code.now body.now }
{
    match body.get(0) {
        Some(first) => first == code,
        None => false,
    }
}

/// The frames behind the first one.
pub(crate) fn behind_first(body: &Frames) -> Result<Frames, NoMemory>
    ensures { IfOk result (λ rest. rest ≡ behind_code body.now) }
{
    body.copy_from(1)
}

/// The id of a ticket, where the answer is `200` and that.
pub(crate) fn id_of(body: &Frames) -> Option<TicketId>
    ensures { result ≡ id_answered body.now }
{
    if !has_code(body, b"200") {
        return None;
    }
    if body.len() != 2 {
        return None;
    }
    TicketId::read(body.get(1)?)
}

/// The first frame where it is three digits, else `000`.
pub(crate) fn code_of(body: &Frames) -> [u8; 3]
    ensures { result ≡ SubmitRules.code_of body.now }
{
    match body.get(0) {
        Some(first) => code_in(first),
        None => *b"000",
    }
}

fn code_in(first: &[u8]) -> [u8; 3]
    ensures { result ≡ SubmitRules.code_of (first.now ∷ []) }
{
    if first.len() != 3 || !first.iter().all(|octet| is_digit(*octet)) {
        return *b"000";
    }
    match first.first_chunk::<3>() {
        Some(code) => *code,
        None => *b"000",
    }
}

fn is_digit(octet: u8) -> bool
    ensures { result ≡ SubmitRules.is_digit octet }
{
    48 <= octet && octet <= 57
}
