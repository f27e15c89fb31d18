//! What is asked for a line.
ghost use Rattle.std.specs.Prelude.{◌≡◌, IfOk, codes};
ghost use Rattle.mj_submit.specs.SubmitRules.{body_of, question_at};
ghost use Rattle.mj_submitter.specs.Courses.{service_at};

use mj_base::{Frames, Name, NoMemory, Octets};
use mj_submit::Stage;
use std::alloc::Global;

/// The service that is asked for a line that is so far.
pub(crate) fn service_at(stage: &Stage) -> Name
    ensures { result ≡ service_at stage.now }
{
    match stage {
        Stage::Fresh => submitting(),
        Stage::Ticket(_) => fetching(),
        Stage::Delivered(_) => closing(),
    }
}

fn submitting() -> Name
    ensures { result ≡ codes "titanic.request" }
{
    match Name::of(b"titanic.request") {
        Some(name) => name,
        None => unreachable!(),
    }
}

fn fetching() -> Name
    ensures { result ≡ codes "titanic.reply" }
{
    match Name::of(b"titanic.reply") {
        Some(name) => name,
        None => unreachable!(),
    }
}

fn closing() -> Name
    ensures { result ≡ codes "titanic.close" }
{
    match Name::of(b"titanic.close") {
        Some(name) => name,
        None => unreachable!(),
    }
}

/// And the body of the request.
pub(crate) fn body_at(
    alloc: Global,
    stage: &Stage,
    name: &Name,
    line: &Octets,
) -> Result<Frames, NoMemory>
    ensures { IfOk result (λ body. body ≡ body_of (question_at stage.now name.now line.now)) }
{
    let mut body = Frames::new(alloc);
    match stage {
        Stage::Fresh => {
            body.push(name.as_slice())?;
            body.push(line.as_slice())?;
        }
        Stage::Ticket(id) => body.push(&id.text())?,
        Stage::Delivered(id) => body.push(&id.text())?,
    }
    Ok(body)
}
