ghost use Rattle.std.specs.Prelude.{ℕ, List, Option};
ghost use Rattle.std.specs.Io.KnownBytes.{Appends};
ghost use Rattle.mj_words.specs.Lines.{AppendsLine};
ghost use Rattle.mj_words.specs.SinkCounts.{SinkCounts, AreLater, counted};

use mj_base::Sink;

/// Prints the line of a fault. That it can't be printed changes no status.
pub fn complain<K: Sink>(line: &[u8], out: &mut K)
    ensures { (written : Option (List ℕ)) (bytes : List ℕ) (before : SinkCounts) → AreLater before (counted (K.faults out.old) (K.wants out.old)) → Appends written (K.written out.old) bytes → AppendsLine written (K.written out.new) before (counted (K.faults out.new) (K.wants out.new)) bytes line.now }
{
    let _ = out.write(line);
}
