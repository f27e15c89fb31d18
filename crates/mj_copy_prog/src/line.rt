ghost use Rattle.std.specs.Prelude.{◌≡◌, IfOk, string_bytes};
ghost use Rattle.mj_copy_prog.specs.CopyLines;
ghost use Rattle.mj_words.specs.Lines;

use super::refusal::Refusal;
use mj_base::NoMemory;
use std::alloc::Global;

pub(crate) fn done_line(alloc: Global, count: u64) -> Result<String, NoMemory>
    ensures { IfOk result (λ line. string_bytes line ≡ Lines.done_line count) }
{
    Ok(format!(in alloc; "done {count}\n")?)
}

pub(crate) fn no_answer_line(alloc: Global, count: u64) -> Result<String, NoMemory>
    ensures { IfOk result (λ line. string_bytes line ≡ CopyLines.no_answer_line count) }
{
    Ok(format!(in alloc; "fault no-answer {count}\n")?)
}

/// The line that says why a file is refused.
pub(crate) fn store_line(alloc: Global, refusal: Refusal) -> Result<String, NoMemory>
    ensures { IfOk result (λ line. string_bytes line ≡ CopyLines.store_line refusal) }
{
    match refusal {
        Refusal::NotAStore => Ok(format!(in alloc; "fault store not-a-store\n")?),
        Refusal::Version(version) => Ok(format!(in alloc; "fault store version {version}\n")?),
        Refusal::Damaged(at) => Ok(format!(in alloc; "fault store damaged {at}\n")?),
        Refusal::Base(base) => Ok(format!(in alloc; "fault store base {base}\n")?),
    }
}
