//! What the broker received.
ghost use Rattle.std.specs.Prelude.{◌≡◌, ◌++◌, ◌<◌, List, Some, None, true, false, length, OnOk};
ghost use Rattle.std.specs.List.{filter, flat_map};
ghost use Rattle.mj_client_cmd.specs.ClientReading.{client_of};
ghost use Rattle.mj_worker_cmd.specs.WorkerReading.{worker_of};
ghost use Rattle.mj_ledger.specs.Events.{Event};
ghost use Rattle.mj_ledger.specs.Standing.{Stands, is_known};
ghost use Rattle.mj_transcript.specs.Lines;
ghost use Rattle.mj_transcript.specs.Said.{acts_by, hears, hears_cmd};

use mj_base::{Frames, NoMemory};
use mj_client_cmd::{ClientCmd, read_client};
use mj_ledger::Tables;
use mj_wire::WireItem;
use mj_worker_cmd::{WorkerAct, read_worker};
use std::alloc::Global;

/// The number of messages among these items.
pub(crate) fn count_messages(items: &[WireItem]) -> usize
    ensures { result ≡ length (filter Lines.is_message items.now) }
{
    let mut count = 0;
    for item in items {
        if is_message(item) {
            count += 1;
        }
    }
    count
}

fn is_message(item: &WireItem) -> bool
    ensures { result ≡ Lines.is_message item.now }
{
    match item {
        WireItem::Message(_) => true,
        _ => false,
    }
}

/// Takes what a connection said. Of the items one at most is a message.
pub(crate) fn hear_items(
    tables: &mut Tables,
    alloc: Global,
    who: &[u8],
    items: &[WireItem],
) -> Result<(), NoMemory>
    requires settled { tables.old.suspect ≡ None }
    requires few { length (filter Lines.is_message items.now) < 2 }
    ensures { OnOk result ((es : List Event) → is_known who.now es ≡ true → Stands tables.old es → Stands tables.new (es ++ flat_map (hears who.now) items.now)) }
{
    for item in items {
        hear_item(tables, alloc, who, item)?;
    }
    Ok(())
}

/// Takes one item. It is a message only where nobody is suspected to be kept waiting.
fn hear_item(
    tables: &mut Tables,
    alloc: Global,
    who: &[u8],
    item: &WireItem,
) -> Result<(), NoMemory>
    requires settled { Lines.is_message item.now ≡ true → tables.old.suspect ≡ None }
    ensures stands { OnOk result ((es : List Event) → is_known who.now es ≡ true → Stands tables.old es → Stands tables.new (es ++ hears who.now item.now)) }
    ensures still { Lines.is_message item.now ≡ false → tables.new ≡ tables.old }
{
    match item {
        WireItem::Message(message) => hear(tables, alloc, who, message),
        _ => Ok(()),
    }
}

/// Takes one message of a connection.
fn hear(tables: &mut Tables, alloc: Global, who: &[u8], message: &Frames) -> Result<(), NoMemory>
    requires settled { tables.old.suspect ≡ None }
    ensures { OnOk result ((es : List Event) → is_known who.now es ≡ true → Stands tables.old es → Stands tables.new (es ++ hears_cmd who.now (client_of message.now) (worker_of message.now))) }
{
    if let Some(cmd) = read_client(alloc, message)? {
        return hear_client(tables, alloc, who, cmd);
    }
    match read_worker(alloc, message)? {
        Some(cmd) => hear_worker(tables, alloc, who, cmd.act),
        None => {
            tables.left(who);
            Ok(())
        }
    }
}

fn hear_client(
    tables: &mut Tables,
    alloc: Global,
    who: &[u8],
    cmd: ClientCmd,
) -> Result<(), NoMemory>
    requires settled { tables.old.suspect ≡ None }
    ensures { OnOk result ((es : List Event) → is_known who.now es ≡ true → Stands tables.old es → Stands tables.new (es ++ hears_cmd who.now (Some cmd) None)) }
{
    let ClientCmd { service, body, .. } = cmd;
    if service.reserved(true) {
        return Ok(());
    }
    tables.asked(alloc, who, service.as_slice(), body)
}

fn hear_worker(
    tables: &mut Tables,
    alloc: Global,
    who: &[u8],
    act: WorkerAct,
) -> Result<(), NoMemory>
    requires settled { tables.old.suspect ≡ None }
    ensures { OnOk result ((es : List Event) → is_known who.now es ≡ true → Stands tables.old es → Stands tables.new (es ++ acts_by who.now act)) }
{
    match act {
        WorkerAct::Ready(service) => tables.ready(alloc, who, service.as_slice()),
        WorkerAct::Reply {
            last,
            address,
            body,
        } => tables.replied(alloc, who, last, address.as_slice(), &body),
        WorkerAct::Heartbeat => Ok(()),
        WorkerAct::Disconnect => {
            tables.left(who);
            Ok(())
        }
    }
}
