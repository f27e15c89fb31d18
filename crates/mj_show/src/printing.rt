ghost use Rattle.std.specs.Prelude.{◌≤◌, OnOk, OnErr, IfErr};
ghost use Rattle.std.specs.Io.KnownBytes.{Appends};
ghost use Rattle.mj_base.specs.Writing.{AppendsFront};
ghost use Rattle.mj_show.specs.Showing;
ghost use Rattle.mj_show.specs.Showing.{item_lines};
ghost use Rattle.mj_show.specs.ShowingSoFar.{PrintCause};

use super::halt::Halt;
use super::lines::item_line;
use mj_base::{Sink, WriteAnswer};
use mj_wire::WireItem;
use std::alloc::Global;

/// Prints a line for each of these items.
pub(crate) fn print_all<K: Sink>(alloc: Global, items: &[WireItem], out: &mut K) -> Result<(), Halt>
    ensures done { OnOk result (Appends (K.written out.old) (K.written out.new) (item_lines items.now)) }
    ensures broken { OnErr result (AppendsFront (K.written out.old) (K.written out.new) (item_lines items.now)) }
    ensures cause { IfErr result (λ halt. PrintCause halt (K.faults out.old) (K.faults out.new)) }
    ensures later { K.faults out.old ≤ K.faults out.new }
    ensures wants_later { K.wants out.old ≤ K.wants out.new }
{
    for item in items {
        print_item(alloc, item, out)?;
    }
    Ok(())
}

fn print_item<K: Sink>(alloc: Global, item: &WireItem, out: &mut K) -> Result<(), Halt>
    ensures done { OnOk result (Appends (K.written out.old) (K.written out.new) (Showing.item_line item.now)) }
    ensures broken { OnErr result (AppendsFront (K.written out.old) (K.written out.new) (Showing.item_line item.now)) }
    ensures cause { IfErr result (λ halt. PrintCause halt (K.faults out.old) (K.faults out.new)) }
    ensures later { K.faults out.old ≤ K.faults out.new }
    ensures wants_later { K.wants out.old ≤ K.wants out.new }
{
    let line = item_line(alloc, item)?;
    print(line.as_bytes(), out)
}

fn print<K: Sink>(line: &[u8], out: &mut K) -> Result<(), Halt>
    ensures done { OnOk result (Appends (K.written out.old) (K.written out.new) line.now) }
    ensures broken { OnErr result (AppendsFront (K.written out.old) (K.written out.new) line.now) }
    ensures cause { IfErr result (λ halt. PrintCause halt (K.faults out.old) (K.faults out.new)) }
    ensures later { K.faults out.old ≤ K.faults out.new }
    ensures wants_later { K.wants out.old ≤ K.wants out.new }
{
    match out.write(line) {
        WriteAnswer::Done => Ok(()),
        WriteAnswer::NoMemory => Err(Halt::NoMemory),
        WriteAnswer::Failed => Err(Halt::Write),
    }
}
