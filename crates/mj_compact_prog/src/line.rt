ghost use Rattle.std.specs.Prelude.{◌≡◌, IfOk, string_bytes};
ghost use Rattle.mj_compact_prog.specs.Halts;
ghost use Rattle.mj_words.specs.Lines;

use super::halt::Refusal;
use mj_base::NoMemory;
use std::alloc::Global;

pub(crate) fn done_line(alloc: Global, count: u64) -> Result<String, NoMemory>
    ensures { IfOk result (λ line. string_bytes line ≡ Lines.done_line count) }
{
    Ok(format!(in alloc; "done {count}\n")?)
}

/// The line that says why a file is refused.
pub(crate) fn store_line(alloc: Global, refusal: Refusal) -> Result<String, NoMemory>
    ensures { IfOk result (λ line. string_bytes line ≡ Halts.store_line refusal) }
{
    match refusal {
        Refusal::NotAStore => Ok(format!(in alloc; "fault store not-a-store\n")?),
        Refusal::Version(version) => Ok(format!(in alloc; "fault store version {version}\n")?),
        Refusal::Damaged(at) => Ok(format!(in alloc; "fault store damaged {at}\n")?),
        Refusal::Numbers => Ok(format!(in alloc; "fault store numbers\n")?),
        Refusal::NotEmpty => Ok(format!(in alloc; "fault store not-empty\n")?),
    }
}
