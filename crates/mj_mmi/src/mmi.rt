ghost use Rattle.std.specs.Prelude.{◌≡◌, [], ◌∷◌, IfOk};
ghost use Rattle.mj_mmi.specs.Asking;
ghost use Rattle.mj_mmi.specs.Asking.{mmi_code};

use mj_base::{Frames, Name, NoMemory};
use std::alloc::Global;

const SERVICE: &[u8] = b"mmi.service";

/// The name that a request to `mmi.service` asks for, the last frame of its body. None where there is no frame, or it
/// is no service name.
pub fn asked(body: &Frames) -> Option<Name>
    ensures { result ≡ Asking.asked body.now }
{
    let last = body.len().checked_sub(1)?;
    Name::of(body.get(last)?)
}

/// The answer to a request to this service, whose name begins with `mmi.`: of `mmi.service`, `200` where the asked
/// name is known and else `404`; of any other, which isn't there, `501`.
pub fn answer(alloc: Global, name: &Name, known: bool) -> Result<Frames, NoMemory>
    ensures { IfOk result (λ frames. frames ≡ mmi_code name.now known ∷ []) }
{
    let mut frames = Frames::new(alloc);
    frames.push(code(name.as_slice(), known))?;
    Ok(frames)
}

fn code(name: &[u8], known: bool) -> &'static [u8]
    ensures { result.now ≡ mmi_code name.now known }
{
    if name != SERVICE {
        b"501"
    } else if known {
        b"200"
    } else {
        b"404"
    }
}
