ghost use Rattle.std.specs.Prelude.{◌≡◌, ◌↔◌, ◌⊎◌, ◌<◌, ℕ, [], false, length, map, string_bytes};
ghost use Rattle.std.specs.Io.KnownBytes.{Appends, Keeps};
ghost use Rattle.mj_base.specs.Rising.{Rose};
ghost use Rattle.mj_base.specs.Writing.{AppendsFront};
ghost use Rattle.mj_disk.specs.DiskModel.{CrashesAs, Now, Turns};
ghost use Rattle.mj_journal.specs.Opening.{IsImageOrOpensAlike, KeepsFile};
ghost use Rattle.mj_words.specs.Lines.{AppendsLine, done_line, fault_words};
ghost use Rattle.mj_words.specs.SinkCounts.{counted};
ghost use Rattle.mj_compact.specs.Compacting.{LeavesWholeOrNone};
ghost use Rattle.mj_compact_prog.specs.CompactRows.{IsMadeWhole, IsRefused, IsRow};
ghost use Rattle.mj_compact_prog.specs.CompactWords;
ghost use Rattle.mj_compact_prog.specs.Halts.{fault_disk};
ghost use Rattle.mj_compact_prog.specs.Statuses.{IsStatus};
ghost use Rattle.mj_compact_prog.specs.declared.status.Status;

use super::finish::finish;
use super::status::{Status, code};
use super::words::asks_to_compact;
use mj_base::{Limits, Sink};
use mj_disk::Disk;
use mj_words::complain;
use std::alloc::Global;

/// Does what the words say, which are those behind the program's name: `FILE compact FILE2` makes of the open tickets of the old
/// file the new one, and prints how many they are. The answer is the status that the program exits with.
pub fn compact<D: Disk, E: Disk, K: Sink>(
    alloc: Global,
    words: &[String],
    old: &mut D,
    new: &mut E,
    out: &mut K,
) -> u8
    ensures statuses { IsStatus result }
    ensures words { (result ≡ 1) ↔ (CompactWords.asks_to_compact (map string_bytes words.now) ≡ false) }
    ensures refused_words { result ≡ 1 → (old.new ≡ old.old) × (new.new ≡ new.old) × AppendsLine (K.written out.old) (K.written out.new) (counted (K.faults out.old) (K.wants out.old)) (counted (K.faults out.new) (K.wants out.new)) [] fault_words }

    // The new file, which was empty, is settled and whole, has the old next number as its base, and exactly the old tickets.
    ensures done { result ≡ 0 → (count : ℕ) × IsMadeWhole D.Disk E.Disk old.old old.new new.old new.new count × Appends (K.written out.old) (K.written out.new) (done_line count) }
    ensures write { result ≡ 7 → Rose (K.faults out.old) (K.faults out.new) × ((count : ℕ) × IsMadeWhole D.Disk E.Disk old.old old.new new.old new.new count × AppendsFront (K.written out.old) (K.written out.new) (done_line count)) }

    // Why a file is refused, which is printed; or a call of one of the disks failed.
    ensures refused { result ≡ 3 → IsRefused D.Disk E.Disk old.old old.new new.old new.new (K.written out.old) (K.written out.new) (counted (K.faults out.old) (K.wants out.old)) (counted (K.faults out.new) (K.wants out.new)) }
    ensures disk { result ≡ 5 → (Rose (D.faults old.old) (D.faults old.new) ⊎ Rose (E.faults new.old) (E.faults new.new)) × AppendsLine (K.written out.old) (K.written out.new) (counted (K.faults out.old) (K.wants out.old)) (counted (K.faults out.new) (K.wants out.new)) [] fault_disk }
    ensures memory { result ≡ 4 → Keeps (K.written out.old) (K.written out.new) }

    // Whatever the answer is: the old file is as it was, or was short, and its images open as they did.
    ensures kept { Turns KeepsFile (D.told old.old) (D.told old.new) }
    ensures crash { CrashesAs IsImageOrOpensAlike (D.time old.old, D.time old.new) (D.told old.old) (D.told old.new) }

    // Whatever the answer is: a new disk that isn't empty isn't written, and of an empty one that is settled each image is no
    // store, or the whole new one.
    ensures unwritten { Now (E.told new.old) (λ held. 0 < length held.octets) → Turns (λ before after. after.octets ≡ before.octets) (E.told new.old) (E.told new.new) }
    ensures images { LeavesWholeOrNone D.Disk E.Disk old.old new.old new.new }
{
    code(run(alloc, words, old, new, out))
}

fn run<D: Disk, E: Disk, K: Sink>(
    alloc: Global,
    words: &[String],
    old: &mut D,
    new: &mut E,
    out: &mut K,
) -> Status
    ensures words { (result ≡ Status.Words) ↔ (CompactWords.asks_to_compact (map string_bytes words.now) ≡ false) }
    ensures row { IsRow D.Disk E.Disk old.old old.new new.old new.new (K.written out.old) (K.written out.new) (counted (K.faults out.old) (K.wants out.old)) (counted (K.faults out.new) (K.wants out.new)) result }
    ensures kept { Turns KeepsFile (D.told old.old) (D.told old.new) }
    ensures crash { CrashesAs IsImageOrOpensAlike (D.time old.old, D.time old.new) (D.told old.old) (D.told old.new) }
    ensures unwritten { Now (E.told new.old) (λ held. 0 < length held.octets) → Turns (λ before after. after.octets ≡ before.octets) (E.told new.old) (E.told new.new) }
    ensures images { LeavesWholeOrNone D.Disk E.Disk old.old new.old new.new }
{
    if !asks_to_compact(words) {
        complain(b"fault words\n", out);
        return Status::Words;
    }
    let made = mj_compact::compact(alloc, &Limits::standard(), old, new);
    finish(alloc, made, out)
}
