ghost use Rattle.std.specs.Prelude.{◌≡◌, ◌≤◌, ◌++◌, drop, IfOk, OnOk, IfSome, IfNone};
ghost use Rattle.mj_worker_cmd.specs.WorkerGrammar.{IsWorkerCommand, IsSpoken, IsActNamed};
ghost use Rattle.mj_worker_cmd.specs.WorkerReading.{worker_of, worker_coded, worker_act, ready_of, reply_of, bare_of};
ghost use Rattle.mj_worker_cmd.specs.WorkerWriting.{worker_frames, act_frames, act_kind};
ghost use Rattle.mj_worker_cmd.specs.declared.command.WorkerCmd.{WorkerCmd as Cmd};

use super::envelope::{push_envelope, read_envelope};
use super::kind::{WorkerKind, worker_code, worker_kind};
use super::{WorkerAct, WorkerCmd};
use mj_base::{Frames, Name, NoMemory};
use mj_opening::{Beginning, Party, push_opening, read_opening};
use std::alloc::Global;

/// The worker's command that this message is, or None where it is none.
pub fn read_worker(alloc: Global, message: &Frames) -> Result<Option<WorkerCmd>, NoMemory>
    ensures exact { IfOk result (λ cmd. cmd ≡ worker_of message.now) }
    ensures found { IfOk result (λ r. IfSome r (λ cmd. IsWorkerCommand cmd message.now)) }
    ensures only { IfOk result (λ r. IfNone r ((cmd : Cmd) → IsWorkerCommand cmd message.now → ⊥)) }
{
    let Some(opening) = read_opening(Party::Workers, message) else {
        return Ok(None);
    };
    let Some(act) = read_act(alloc, message, &opening)? else {
        return Ok(None);
    };
    Ok(Some(WorkerCmd {
        version: opening.version,
        lead: opening.lead,
        act,
    }))
}

/// The frames of this command. In 0.1 the empty frame stands first, and each reply is the last.
pub fn write_worker(alloc: Global, cmd: &WorkerCmd) -> Result<Frames, NoMemory>
    requires { IsSpoken cmd.now.version cmd.now.lead cmd.now.act }
    ensures exact { IfOk result (λ message. message ≡ worker_frames cmd.now) }
    ensures related { IfOk result (λ message. IsWorkerCommand cmd.now message) }
    ensures read { IfOk result (λ message. worker_of message ≡ Some cmd.now) }
{
    let mut message = Frames::new(alloc);
    push_opening(Party::Workers, cmd.version, cmd.lead, &mut message)?;
    message.push(worker_code(cmd.version, kind_of(&cmd.act)))?;
    push_act(&cmd.act, &mut message)?;
    Ok(message)
}

fn read_act(
    alloc: Global,
    message: &Frames,
    opening: &Beginning,
) -> Result<Option<WorkerAct>, NoMemory>
    requires { opening.now.next ≤ 2 }
    ensures { IfOk result (λ act. act ≡ worker_coded opening.now.version (drop opening.now.next message.now)) }
{
    let Some(code) = message.get(opening.next) else {
        return Ok(None);
    };
    let at = opening.next + 1;
    let Some(kind) = worker_kind(opening.version, code) else {
        return Ok(None);
    };
    read_kind(alloc, message, at, kind)
}

fn read_kind(
    alloc: Global,
    message: &Frames,
    at: usize,
    kind: WorkerKind,
) -> Result<Option<WorkerAct>, NoMemory>
    requires { at ≤ 3 }
    ensures { IfOk result (λ act. act ≡ worker_act kind (drop at message.now)) }
{
    match kind {
        WorkerKind::Ready => Ok(read_ready(message, at)),
        WorkerKind::Reply { last } => read_reply(alloc, message, at, last),
        WorkerKind::Heartbeat => Ok(bare(message, at, WorkerAct::Heartbeat)),
        WorkerKind::Disconnect => Ok(bare(message, at, WorkerAct::Disconnect)),
    }
}

fn read_ready(message: &Frames, at: usize) -> Option<WorkerAct>
    requires { at ≤ 3 }
    ensures { result ≡ ready_of (drop at message.now) }
{
    let service = message.get(at)?;
    if message.get(at + 1).is_some() {
        return None;
    }
    Some(WorkerAct::Ready(Name::of(service)?))
}

fn read_reply(
    alloc: Global,
    message: &Frames,
    at: usize,
    last: bool,
) -> Result<Option<WorkerAct>, NoMemory>
    requires { at ≤ 3 }
    ensures { IfOk result (λ act. act ≡ reply_of last (drop at message.now)) }
{
    let Some(envelope) = read_envelope(alloc, message, at)? else {
        return Ok(None);
    };
    Ok(Some(WorkerAct::Reply {
        last,
        address: envelope.address,
        body: envelope.body,
    }))
}

/// This command, where no further frame stands at this place.
fn bare(message: &Frames, at: usize, act: WorkerAct) -> Option<WorkerAct>
    ensures { result ≡ bare_of act (drop at message.now) }
{
    if message.get(at).is_some() {
        return None;
    }
    Some(act)
}

fn push_act(act: &WorkerAct, out: &mut Frames) -> Result<(), NoMemory>
    ensures named { OnOk result (IsActNamed act.now) }
    ensures exact { OnOk result (out.new ≡ out.old ++ act_frames act.now) }
{
    match act {
        WorkerAct::Ready(service) => out.push(service.as_slice()),
        WorkerAct::Reply { address, body, .. } => push_envelope(address, body, out),
        WorkerAct::Heartbeat | WorkerAct::Disconnect => Ok(()),
    }
}

fn kind_of(act: &WorkerAct) -> WorkerKind
    ensures { result ≡ act_kind act.now }
{
    match act {
        WorkerAct::Ready(_) => WorkerKind::Ready,
        WorkerAct::Reply { last, .. } => WorkerKind::Reply { last: *last },
        WorkerAct::Heartbeat => WorkerKind::Heartbeat,
        WorkerAct::Disconnect => WorkerKind::Disconnect,
    }
}
