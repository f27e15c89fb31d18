//! One line more, by its kind.
ghost use Rattle.std.specs.Prelude.{◌≡◌, ◌<◌, IfOk};
ghost use Rattle.mj_audit.specs.Following;
ghost use Rattle.mj_audit.specs.Following.{IsStep, verdict_by};
ghost use Rattle.mj_transcript.specs.declared.line.Line.TheVariants as lines;

use super::Lane;
use super::hearing::{count_messages, hear_items};
use super::settling::settle;
use super::slots::{is_open, put, take_out};
use super::telling::tell_items;
use mj_base::{NoMemory, Octets};
use mj_ledger::Tables;
use mj_transcript::{Law, Verdict};
use std::alloc::Global;

/// The first law that is broken.
fn judge(tables: &Tables, settled: bool) -> Verdict
    ensures { result ≡ verdict_by tables.now.wire tables.now.owner tables.now.busy settled }
{
    if !tables.wire {
        Verdict::Broken(Law::Wire)
    } else if !tables.owner {
        Verdict::Broken(Law::Owner)
    } else if !tables.busy {
        Verdict::Broken(Law::Busy)
    } else if !settled {
        Verdict::Broken(Law::Waiting)
    } else {
        Verdict::Held
    }
}

pub(crate) fn open(
    lanes: &mut Vec<Option<Lane>>,
    tables: &mut Tables,
    alloc: Global,
    lane: u32,
    address: Octets,
) -> Result<Verdict, NoMemory>
    requires { lane < 64 }
    ensures { IfOk result (IsStep lanes.old.items tables.old lanes.new.items tables.new (lines.Open lane address)) }
{
    if is_open(lanes.as_slice(), lane) || tables.knows(address.as_slice()) {
        return Ok(Verdict::Unlawful);
    }
    let settled = settle(tables);
    tables.opened(alloc, address.as_slice())?;
    let connection = Lane::new(alloc, address)?;
    put(lanes, lane, connection);
    Ok(judge(tables, settled))
}

pub(crate) fn receive(
    lanes: &mut Vec<Option<Lane>>,
    tables: &mut Tables,
    alloc: Global,
    lane: u32,
    octets: &[u8],
) -> Result<Verdict, NoMemory>
    requires { lane < 64 }
    ensures { IfOk result (IsStep lanes.old.items tables.old lanes.new.items tables.new (lines.In lane octets.now)) }
{
    let Some(mut connection) = take_out(lanes, lane) else {
        return Ok(Verdict::Unlawful);
    };
    let items = connection.receive(alloc, octets)?;
    if count_messages(items.as_slice()) > 1 {
        return Ok(Verdict::Unlawful);
    }
    if !settle(tables) {
        return Ok(Verdict::Broken(Law::Waiting));
    }
    hear_items(
        tables,
        alloc,
        connection.address.as_slice(),
        items.as_slice(),
    )?;
    put(lanes, lane, connection);
    Ok(judge(tables, true))
}

pub(crate) fn send(
    lanes: &mut Vec<Option<Lane>>,
    tables: &mut Tables,
    alloc: Global,
    lane: u32,
    octets: &[u8],
) -> Result<Verdict, NoMemory>
    requires { lane < 64 }
    ensures { IfOk result (IsStep lanes.old.items tables.old lanes.new.items tables.new (lines.Out lane octets.now)) }
{
    let Some(mut connection) = take_out(lanes, lane) else {
        return Ok(Verdict::Unlawful);
    };
    let items = connection.send(alloc, octets)?;
    tell_items(
        tables,
        alloc,
        connection.address.as_slice(),
        items.as_slice(),
    )?;
    put(lanes, lane, connection);
    Ok(judge(tables, true))
}

pub(crate) fn close(lanes: &mut Vec<Option<Lane>>, tables: &mut Tables, lane: u32) -> Verdict
    requires { lane < 64 }
    ensures { IsStep lanes.old.items tables.old lanes.new.items tables.new (lines.Close lane) result }
{
    let Some(connection) = take_out(lanes, lane) else {
        return Verdict::Unlawful;
    };
    let settled = settle(tables);
    tables.left(connection.address.as_slice());
    judge(tables, settled)
}

pub(crate) fn lapse(lanes: &mut Vec<Option<Lane>>, tables: &mut Tables, lane: u32) -> Verdict
    requires { lane < 64 }
    ensures { IsStep lanes.old.items tables.old lanes.new.items tables.new (lines.Lapse lane) result }
{
    let Some(connection) = take_out(lanes, lane) else {
        return Verdict::Unlawful;
    };
    let settled = settle(tables);
    tables.lapsed(connection.address.as_slice());
    put(lanes, lane, connection);
    judge(tables, settled)
}
