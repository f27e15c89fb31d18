ghost use Rattle.std.specs.Prelude.{◌≡◌, ◌≤◌, ◌++◌, drop, IfOk, OnOk, IfSome, IfNone};
ghost use Rattle.mj_worker_cmd.specs.WorkerGrammar.{IsOrder, IsLed};
ghost use Rattle.mj_worker_cmd.specs.WorkerReading;
ghost use Rattle.mj_worker_cmd.specs.WorkerReading.{order_of, order_coded, order_act};
ghost use Rattle.mj_worker_cmd.specs.WorkerWriting.{order_frames, order_act_frames, order_act_kind};
ghost use Rattle.mj_worker_cmd.specs.declared.command.Order.{Order as AnOrder};

use super::envelope::{push_envelope, read_envelope};
use super::kind::{OrderKind, order_code, order_kind};
use super::{Order, OrderAct};
use mj_base::{Frames, NoMemory};
use mj_opening::{Beginning, Party, push_opening, read_opening};
use std::alloc::Global;

/// The broker's command to a worker that this message is, or None where it is none.
pub fn read_order(alloc: Global, message: &Frames) -> Result<Option<Order>, NoMemory>
    ensures exact { IfOk result (λ order. order ≡ order_of message.now) }
    ensures found { IfOk result (λ r. IfSome r (λ order. IsOrder order message.now)) }
    ensures only { IfOk result (λ r. IfNone r ((order : AnOrder) → IsOrder order message.now → ⊥)) }
{
    let Some(opening) = read_opening(Party::Workers, message) else {
        return Ok(None);
    };
    let Some(act) = read_act(alloc, message, &opening)? else {
        return Ok(None);
    };
    Ok(Some(Order {
        version: opening.version,
        lead: opening.lead,
        act,
    }))
}

/// The frames of this command. Where `is_writable` says that its version has such a command, they are that command's
/// and are read back as it.
pub fn write_order(alloc: Global, order: &Order) -> Result<Frames, NoMemory>
    ensures exact { IfOk result (λ message. message ≡ order_frames order.now) }
    ensures related { IsLed order.now.version order.now.lead → IfOk result (λ message. IsOrder order.now message) }
    ensures read { IsLed order.now.version order.now.lead → IfOk result (λ message. order_of message ≡ Some order.now) }
{
    let mut message = Frames::new(alloc);
    push_opening(Party::Workers, order.version, order.lead, &mut message)?;
    message.push(order_code(order.version, kind_of(&order.act)))?;
    push_act(&order.act, &mut message)?;
    Ok(message)
}

fn read_act(
    alloc: Global,
    message: &Frames,
    opening: &Beginning,
) -> Result<Option<OrderAct>, NoMemory>
    requires { opening.now.next ≤ 2 }
    ensures { IfOk result (λ act. act ≡ order_coded opening.now.version (drop opening.now.next message.now)) }
{
    let Some(code) = message.get(opening.next) else {
        return Ok(None);
    };
    let Some(kind) = order_kind(opening.version, code) else {
        return Ok(None);
    };
    read_kind(alloc, message, opening.next + 1, kind)
}

fn read_kind(
    alloc: Global,
    message: &Frames,
    at: usize,
    kind: OrderKind,
) -> Result<Option<OrderAct>, NoMemory>
    requires { at ≤ 3 }
    ensures { IfOk result (λ act. act ≡ order_act kind (drop at message.now)) }
{
    match kind {
        OrderKind::Request => read_request(alloc, message, at),
        OrderKind::Heartbeat => Ok(bare(message, at, OrderAct::Heartbeat)),
        OrderKind::Disconnect => Ok(bare(message, at, OrderAct::Disconnect)),
    }
}

fn read_request(alloc: Global, message: &Frames, at: usize) -> Result<Option<OrderAct>, NoMemory>
    requires { at ≤ 3 }
    ensures { IfOk result (λ act. act ≡ WorkerReading.request_of (drop at message.now)) }
{
    let Some(envelope) = read_envelope(alloc, message, at)? else {
        return Ok(None);
    };
    Ok(Some(OrderAct::Request {
        address: envelope.address,
        body: envelope.body,
    }))
}

/// This command, where no further frame stands at this place.
fn bare(message: &Frames, at: usize, act: OrderAct) -> Option<OrderAct>
    ensures { result ≡ WorkerReading.bare_of act (drop at message.now) }
{
    if message.get(at).is_some() {
        return None;
    }
    Some(act)
}

fn push_act(act: &OrderAct, out: &mut Frames) -> Result<(), NoMemory>
    ensures { OnOk result (out.new ≡ out.old ++ order_act_frames act.now) }
{
    match act {
        OrderAct::Request { address, body } => push_envelope(address, body, out),
        OrderAct::Heartbeat | OrderAct::Disconnect => Ok(()),
    }
}

fn kind_of(act: &OrderAct) -> OrderKind
    ensures { result ≡ order_act_kind act.now }
{
    match act {
        OrderAct::Request { .. } => OrderKind::Request,
        OrderAct::Heartbeat => OrderKind::Heartbeat,
        OrderAct::Disconnect => OrderKind::Disconnect,
    }
}
