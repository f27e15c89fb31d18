//! The codes of commands, a frame of one byte each, in both versions.
ghost use Rattle.std.specs.Prelude.{◌≡◌};
ghost use Rattle.mj_worker_cmd.specs.Codes;

use mj_base::Version;
use mj_opening::is_same;

const ONE: &[u8] = b"\x01";

const TWO: &[u8] = b"\x02";

const THREE: &[u8] = b"\x03";

const FOUR: &[u8] = b"\x04";

const FIVE: &[u8] = b"\x05";

const SIX: &[u8] = b"\x06";

/// The kinds of a worker's commands, as their codes tell them apart.
#[derive(Clone, Copy)]
pub(crate) enum WorkerKind {
    Ready,
    Reply { last: bool },
    Heartbeat,
    Disconnect,
}

/// The kinds of the broker's commands.
#[derive(Clone, Copy)]
pub(crate) enum OrderKind {
    Request,
    Heartbeat,
    Disconnect,
}

pub(crate) fn worker_kind(version: Version, code: &[u8]) -> Option<WorkerKind>
    ensures { result ≡ Codes.worker_kind version code.now }
{
    match version {
        Version::One => worker_kind_one(code),
        Version::Two => worker_kind_two(code),
    }
}

fn worker_kind_one(code: &[u8]) -> Option<WorkerKind>
    ensures { result ≡ Codes.worker_kind_one code.now }
{
    if is_same(code, ONE) {
        Some(WorkerKind::Ready)
    } else if is_same(code, THREE) {
        Some(WorkerKind::Reply { last: true })
    } else if is_same(code, FOUR) {
        Some(WorkerKind::Heartbeat)
    } else if is_same(code, FIVE) {
        Some(WorkerKind::Disconnect)
    } else {
        None
    }
}

fn worker_kind_two(code: &[u8]) -> Option<WorkerKind>
    ensures { result ≡ Codes.worker_kind_two code.now }
{
    if is_same(code, ONE) {
        Some(WorkerKind::Ready)
    } else if is_same(code, THREE) {
        Some(WorkerKind::Reply { last: false })
    } else if is_same(code, FOUR) {
        Some(WorkerKind::Reply { last: true })
    } else if is_same(code, FIVE) {
        Some(WorkerKind::Heartbeat)
    } else if is_same(code, SIX) {
        Some(WorkerKind::Disconnect)
    } else {
        None
    }
}

pub(crate) fn worker_code(version: Version, kind: WorkerKind) -> &'static [u8]
    ensures { result.now ≡ Codes.worker_code version kind }
{
    match (version, kind) {
        (_, WorkerKind::Ready) => ONE,
        (Version::One, WorkerKind::Reply { .. }) => THREE,
        (Version::One, WorkerKind::Heartbeat) => FOUR,
        (Version::One, WorkerKind::Disconnect) => FIVE,
        (Version::Two, WorkerKind::Reply { last: false }) => THREE,
        (Version::Two, WorkerKind::Reply { last: true }) => FOUR,
        (Version::Two, WorkerKind::Heartbeat) => FIVE,
        (Version::Two, WorkerKind::Disconnect) => SIX,
    }
}

pub(crate) fn order_kind(version: Version, code: &[u8]) -> Option<OrderKind>
    ensures { result ≡ Codes.order_kind version code.now }
{
    if is_same(code, TWO) {
        return Some(OrderKind::Request);
    }
    if is_same(code, order_code(version, OrderKind::Heartbeat)) {
        return Some(OrderKind::Heartbeat);
    }
    if is_same(code, order_code(version, OrderKind::Disconnect)) {
        return Some(OrderKind::Disconnect);
    }
    None
}

pub(crate) fn order_code(version: Version, kind: OrderKind) -> &'static [u8]
    ensures { result.now ≡ Codes.order_code version kind }
{
    match (version, kind) {
        (_, OrderKind::Request) => TWO,
        (Version::One, OrderKind::Heartbeat) => FOUR,
        (Version::One, OrderKind::Disconnect) => FIVE,
        (Version::Two, OrderKind::Heartbeat) => FIVE,
        (Version::Two, OrderKind::Disconnect) => SIX,
    }
}
