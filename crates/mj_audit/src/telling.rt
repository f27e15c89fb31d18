//! What the broker sent.
ghost use Rattle.std.specs.Prelude.{◌≡◌, ◌++◌, List, Some, None, true, OnOk};
ghost use Rattle.std.specs.List.{flat_map};
ghost use Rattle.mj_client_cmd.specs.ClientReading.{reply_of};
ghost use Rattle.mj_worker_cmd.specs.WorkerReading.{order_of};
ghost use Rattle.mj_ledger.specs.Events.{Event};
ghost use Rattle.mj_ledger.specs.Standing.{Stands, is_known};
ghost use Rattle.mj_transcript.specs.Said.{ordered, told, told_cmd};

use mj_base::{Frames, NoMemory};
use mj_client_cmd::{ClientReply, read_reply};
use mj_ledger::Tables;
use mj_wire::WireItem;
use mj_worker_cmd::{OrderAct, read_order};
use std::alloc::Global;

/// Takes what a connection was sent.
pub(crate) fn tell_items(
    tables: &mut Tables,
    alloc: Global,
    who: &[u8],
    items: &[WireItem],
) -> Result<(), NoMemory>
    ensures { OnOk result ((es : List Event) → is_known who.now es ≡ true → Stands tables.old es → Stands tables.new (es ++ flat_map (told who.now) items.now)) }
{
    for item in items {
        tell_item(tables, alloc, who, item)?;
    }
    Ok(())
}

fn tell_item(
    tables: &mut Tables,
    alloc: Global,
    who: &[u8],
    item: &WireItem,
) -> Result<(), NoMemory>
    ensures { OnOk result ((es : List Event) → is_known who.now es ≡ true → Stands tables.old es → Stands tables.new (es ++ told who.now item.now)) }
{
    match item {
        WireItem::Message(message) => tell(tables, alloc, who, message),
        WireItem::Ended { .. } => {
            tables.wrong();
            Ok(())
        }
        _ => Ok(()),
    }
}

/// Takes one message that was sent to a connection.
fn tell(tables: &mut Tables, alloc: Global, who: &[u8], message: &Frames) -> Result<(), NoMemory>
    ensures { OnOk result ((es : List Event) → is_known who.now es ≡ true → Stands tables.old es → Stands tables.new (es ++ told_cmd who.now (reply_of message.now) (order_of message.now))) }
{
    if let Some(reply) = read_reply(alloc, message)? {
        return tell_client(tables, alloc, who, &reply);
    }
    match read_order(alloc, message)? {
        Some(order) => tell_worker(tables, alloc, who, order.act),
        None => {
            tables.wrong();
            Ok(())
        }
    }
}

fn tell_client(
    tables: &mut Tables,
    alloc: Global,
    who: &[u8],
    reply: &ClientReply,
) -> Result<(), NoMemory>
    ensures { OnOk result ((es : List Event) → Stands tables.old es → Stands tables.new (es ++ told_cmd who.now (Some reply.now) None)) }
{
    if reply.service.reserved(true) {
        return Ok(());
    }
    tables.answered(
        alloc,
        who,
        reply.service.as_slice(),
        reply.last,
        &reply.body,
    )
}

fn tell_worker(
    tables: &mut Tables,
    alloc: Global,
    who: &[u8],
    act: OrderAct,
) -> Result<(), NoMemory>
    ensures { OnOk result ((es : List Event) → is_known who.now es ≡ true → Stands tables.old es → Stands tables.new (es ++ ordered who.now act)) }
{
    match act {
        OrderAct::Request { address, body } => tables.given(alloc, who, address.as_slice(), &body),
        OrderAct::Heartbeat => Ok(()),
        OrderAct::Disconnect => {
            tables.left(who);
            Ok(())
        }
    }
}
