ghost use Rattle.std.specs.Prelude.{◌≡◌, MatchResult};
ghost use Rattle.mj_bridge.specs.BridgeRules.{Bridge as ABridge};
ghost use Rattle.mj_bridge_prog.specs.BridgeTable;
ghost use Rattle.mj_bridge_prog.specs.BridgeTable.{CameTo, IsHalted, IsRow, scene, status_after};
ghost use Rattle.mj_bridge_prog.specs.Sides.{Counts, Sides};
ghost use Rattle.mj_words.specs.SinkCounts.{counted};

use super::ending::{Ending, ending_line, is_good};
use super::status::Status;
use mj_base::{NoMemory, Sink, WriteAnswer};
use mj_peering::Stop;
use mj_words::complain;
use std::alloc::Global;

/// Prints the last line of a run, if it has one, and says how it ended.
pub(crate) fn finish<K: Sink>(alloc: Global, run: Result<Ending, Stop>, out: &mut K) -> Status
    ensures { (first : ABridge) (old now : Sides) (before later : Counts) → MatchResult run (CameTo first old now) (IsHalted first old now before later) → IsRow result first (scene old now before later (K.written out.old) (K.written out.new) (counted (K.faults out.old) (K.wants out.old)) (counted (K.faults out.new) (K.wants out.new))) }
{
    match run {
        Ok(ending) => finish_whole(alloc, ending, out),
        Err(stop) => break_off(stop, out),
    }
}

fn finish_whole<K: Sink>(alloc: Global, ending: Ending, out: &mut K) -> Status
    ensures { (first : ABridge) (old now : Sides) (before later : Counts) → CameTo first old now ending → IsRow result first (scene old now before later (K.written out.old) (K.written out.new) (counted (K.faults out.old) (K.wants out.old)) (counted (K.faults out.new) (K.wants out.new))) }
{
    match ending_line(alloc, ending) {
        Ok(line) => print_ending(ending, line.as_bytes(), out),
        Err(NoMemory) => Status::NoMemory,
    }
}

/// Prints the line of an ending. That no answer came can fail to be printed, and is the status still.
fn print_ending<K: Sink>(ending: Ending, line: &[u8], out: &mut K) -> Status
    ensures { (first : ABridge) (old now : Sides) (before later : Counts) → line.now ≡ BridgeTable.ending_line ending → CameTo first old now ending → IsRow result first (scene old now before later (K.written out.old) (K.written out.new) (counted (K.faults out.old) (K.wants out.old)) (counted (K.faults out.new) (K.wants out.new))) }
{
    if is_good(ending) {
        return status_of(out.write(line));
    }
    complain(line, out);
    Status::NoAnswer
}

fn status_of(answer: WriteAnswer) -> Status
    ensures { result ≡ status_after answer }
{
    match answer {
        WriteAnswer::Done => Status::Done,
        WriteAnswer::NoMemory => Status::NoMemory,
        WriteAnswer::Failed => Status::Write,
    }
}

fn break_off<K: Sink>(stop: Stop, out: &mut K) -> Status
    ensures { (first : ABridge) (old now : Sides) (before later : Counts) → IsHalted first old now before later stop → IsRow result first (scene old now before later (K.written out.old) (K.written out.new) (counted (K.faults out.old) (K.wants out.old)) (counted (K.faults out.new) (K.wants out.new))) }
{
    match stop {
        Stop::NoMemory => Status::NoMemory,
        Stop::Read => {
            complain(b"fault read\n", out);
            Status::Read
        }
        Stop::Write => Status::Write,
    }
}
