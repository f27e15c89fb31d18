ghost use Rattle.std.specs.Prelude.{◌≡◌};
ghost use Rattle.mj_show.specs.Helping.{Helps};

use mj_base::{Sink, WriteAnswer};

/// The line that names the commands.
const COMMANDS: &[u8] =
    b"commands help replay tickets show gen broker client worker compact bridge audit ship follow\n";

/// Prints the names of the commands; answers the status that the program exits with.
pub fn help<K: Sink>(out: &mut K) -> u8
    ensures { Helps (K.written out.old) (K.written out.new) (K.faults out.old) (K.faults out.new) result }
{
    match out.write(COMMANDS) {
        WriteAnswer::Done => 0,
        WriteAnswer::NoMemory => 4,
        WriteAnswer::Failed => 7,
    }
}
