ghost use Rattle.std.specs.Prelude.{ℕ, List, ◌≡◌, ◌↔◌, ◌+◌, ◌⊎◌, ◌^◌, ◌≤◌, [], true, false, None, Some, IfSome, map, take, string_bytes};
ghost use Rattle.std.specs.Io.KnownBytes.{Appends};
ghost use Rattle.mj_base.specs.Rising.{Rose};
ghost use Rattle.mj_base.specs.Writing.{AppendsFront};
ghost use Rattle.mj_gen.specs.Generating.{Generates};
ghost use Rattle.mj_machine.specs.MachineState.{Machine};
ghost use Rattle.mj_prog.specs.Listing.{IsOpenedAlone, ListingRow, Lists, listed};
ghost use Rattle.mj_prog.specs.Made.{Begins, Runs};
ghost use Rattle.mj_prog.specs.Reads.{ReadsNoFurther};
ghost use Rattle.mj_prog.specs.ReplayTable.{AnswersFor, IsCutByStore, IsCutOff, IsDone, IsRefused, IsUnread, IsUnwritten};
ghost use Rattle.mj_words.specs.Lines.{AppendsLine, fault_words};
ghost use Rattle.mj_prog.specs.Running.{fault_counts};
ghost use Rattle.mj_prog.specs.Script.{script};
ghost use Rattle.mj_prog.specs.Shown.{fault_disk};
ghost use Rattle.mj_words.specs.SinkCounts.{counted};
ghost use Rattle.mj_prog.specs.StatusRows.{CommandCause, IsFileRow, IsRefusedFile, IsRow, IsUnopened, LoadCause, StatusCause};
ghost use Rattle.mj_prog.specs.Statuses.{IsStatus, code_of, status_as};
ghost use Rattle.mj_prog.specs.Words.{AskForNothing, IsLoad, asks_for_tickets, command_in, has_file, load_in, options_in, tool_in};
ghost use Rattle.mj_prog.specs.declared.status.Status;
ghost use Rattle.mj_prog.specs.declared.words.Tool;
ghost use Rattle.mj_serve.specs.Serving.{IsLeftAlone};
ghost use Rattle.mj_audit_prog.specs.Auditing.{Audits};
ghost use Rattle.mj_show.specs.Helping.{Helps};
ghost use Rattle.mj_show.specs.Showing.{Shows};
ghost use Rattle.mj_store.specs.Opening.{NoneLawful};
ghost use Rattle.mj_store.specs.Standing.{IsTelling};

use super::finish::finish;
use super::listing::list_tickets;
use super::progress::Progress;
use super::run::run_script;
use super::status::{Status, code};
use super::words::{Command, Load, Options, Tool, read_tool, read_words};
use mj_audit_prog::audit;
use mj_base::{Sink, Source};
use mj_disk::Disk;
use mj_gen::generate;
use mj_show::{help, show};
use mj_words::complain;
use std::alloc::Global;

/// Bytes of a script that are read at most.
const SCRIPT_BYTES: u64 = 1 << 40;

/// Does what the words say, which are those behind the program's name. `- replay`, with its options, reads a script from the
/// source and prints what the broker does without a store; `FILE replay` does so with the tickets of the file that the disk is.
/// `PLACE gen N` runs a load that is made by rule, and prints what the broker did in numbers. `FILE tickets` prints the file's
/// open tickets, `- show` what the stream of the source says, `- audit` whether the transcript that it is keeps the laws, and
/// `help` the names of the commands. The answer is the status that the program exits with.
pub fn tool<S: Source, D: Disk, K: Sink>(
    alloc: Global,
    words: &[String],
    src: &mut S,
    disk: &mut D,
    out: &mut K,
) -> u8
    ensures statuses { IsStatus result }
    ensures words { (result ≡ 1) ↔ AskForNothing (map string_bytes words.now) }
    ensures refused_words { result ≡ 1 → (src.new ≡ src.old) × (disk.new ≡ disk.old) × AppendsLine (K.written out.old) (K.written out.new) (counted (K.faults out.old) (K.wants out.old)) (counted (K.faults out.new) (K.wants out.new)) [] fault_words }

    // A replay: what is printed is what the machine does, without a store or with the commands as which the file opens; and what
    // the disk is then, and may be after a crash.
    ensures done { result ≡ 0 → Runs D.Disk disk.old disk.new (options_in (map string_bytes words.now)) (λ lanes first made. IsDone lanes first made (S.left src.old) (K.written out.old) (K.written out.new)) }
    ensures unlawful { result ≡ 2 → Runs D.Disk disk.old disk.new (options_in (map string_bytes words.now)) (λ lanes first made. IsRefused lanes first made (S.left src.old) (K.written out.old) (K.written out.new) (counted (K.faults out.old) (K.wants out.old)) (counted (K.faults out.new) (K.wants out.new))) }
    ensures store { result ≡ 3 → Runs D.Disk disk.old disk.new (options_in (map string_bytes words.now)) (λ lanes first made. (D.told disk.old ≡ None) × IsCutByStore lanes first made (S.left src.old) (K.written out.old) (K.written out.new) (counted (K.faults out.old) (K.wants out.old)) (counted (K.faults out.new) (K.wants out.new))) }
    ensures memory { result ≡ 4 → Runs D.Disk disk.old disk.new (options_in (map string_bytes words.now)) (λ lanes first made. IsCutOff lanes first made (S.left src.old) (K.written out.old) (K.written out.new)) }
    ensures read { result ≡ 6 → Rose (S.faults src.old) (S.faults src.new) × Runs D.Disk disk.old disk.new (options_in (map string_bytes words.now)) (λ lanes first made. IsUnread lanes first made (S.left src.old) (S.left src.new) (K.written out.old) (K.written out.new) (counted (K.faults out.old) (K.wants out.old)) (counted (K.faults out.new) (K.wants out.new))) }
    ensures write { result ≡ 7 → Rose (K.faults out.old) (K.faults out.new) × Runs D.Disk disk.old disk.new (options_in (map string_bytes words.now)) (λ lanes first made. IsUnwritten lanes first made (S.left src.old) (K.written out.old) (K.written out.new)) }
    ensures complete { IfSome (options_in (map string_bytes words.now)) (λ options. IfSome (S.left src.old) (λ all. (first : Machine) → Begins options.stored options.seed (D.told disk.old) first → IsTelling D.Disk disk.old → ¬ Rose (S.faults src.old) (S.faults src.new) → ¬ Rose (K.faults out.old) (K.faults out.new) → ¬ Rose (D.faults disk.old) (D.faults disk.new) → AnswersFor (script options.lanes (take (2 ^ 40) all)).ending result)) }

    // Nothing behind the piece in which the script stops is read, and nothing behind a read that gave nothing.
    ensures no_further { IfSome (options_in (map string_bytes words.now)) (λ options. ReadsNoFurther options.lanes (S.left src.old) (S.last src.old) (S.last src.new)) }
    ensures misses { S.misses src.new ≤ S.misses src.old + 1 }

    // A file that isn't opened: for what stands in it, or since a call of the disk failed.
    ensures refused { result ≡ 3 → IsTelling D.Disk disk.old → (has_file (map string_bytes words.now) ≡ true) × (src.new ≡ src.old) × IsRefusedFile (D.told disk.old) (D.told disk.new) (K.written out.old) (K.written out.new) (counted (K.faults out.old) (K.wants out.old)) (counted (K.faults out.new) (K.wants out.new)) }
    ensures refuses { has_file (map string_bytes words.now) ≡ true → IsTelling D.Disk disk.old → NoneLawful (D.told disk.old) → (src.new ≡ src.old) × ((result ≡ 3) ⊎ (result ≡ 4) ⊎ (result ≡ 5)) }
    ensures opening { result ≡ 5 → (load_in (map string_bytes words.now) ≡ None → Rose (D.faults disk.old) (D.faults disk.new)) × (src.new ≡ src.old) × AppendsLine (K.written out.old) (K.written out.new) (counted (K.faults out.old) (K.wants out.old)) (counted (K.faults out.new) (K.wants out.new)) [] fault_disk }

    // Without a file the disk's bytes are as they were, and a crash leaves nothing new.
    ensures alone { has_file (map string_bytes words.now) ≡ false → IsLeftAlone (D.time disk.old) (D.told disk.old) (D.told disk.new) }

    // The tickets of a file: those that its commands leave open, by number. The file is only opened.
    ensures lists { asks_for_tickets (map string_bytes words.now) ≡ true → result ≡ 0 → Lists (D.told disk.old) (λ tickets. Appends (K.written out.old) (K.written out.new) (listed tickets)) }
    ensures lists_front { asks_for_tickets (map string_bytes words.now) ≡ true → (result ≡ 4) ⊎ (result ≡ 7) → Lists (D.told disk.old) (λ tickets. AppendsFront (K.written out.old) (K.written out.new) (listed tickets)) }
    ensures lists_all { asks_for_tickets (map string_bytes words.now) ≡ true → ¬ Rose (K.faults out.old) (K.faults out.new) → ¬ Rose (D.faults disk.old) (D.faults disk.new) → Lists (D.told disk.old) (λ tickets. (result ≡ 0) ⊎ (result ≡ 4)) }
    ensures opened_alone { asks_for_tickets (map string_bytes words.now) ≡ true → (src.new ≡ src.old) × IsOpenedAlone D.Disk disk.old disk.new }

    // A load that is made by rule: what is printed are the numbers of the machine's run over it.
    ensures gens { IfSome (load_in (map string_bytes words.now)) (λ load. (src.new ≡ src.old) × Generates D.Disk load.requests load.stored disk.old disk.new (K.written out.old) (K.written out.new) (counted (K.faults out.old) (K.wants out.old)) (counted (K.faults out.new) (K.wants out.new)) result) }

    // What needs no broker: the names of the commands, what a stream says, and whether a transcript keeps the laws.
    ensures helps { tool_in (map string_bytes words.now) ≡ Some Tool.Help → (src.new ≡ src.old) × (disk.new ≡ disk.old) × Helps (K.written out.old) (K.written out.new) (K.faults out.old) (K.faults out.new) result }
    ensures shows { tool_in (map string_bytes words.now) ≡ Some Tool.Show → (disk.new ≡ disk.old) × Shows (S.left src.old) (S.left src.new) (S.faults src.old) (S.faults src.new) (K.written out.old) (K.written out.new) (counted (K.faults out.old) (K.wants out.old)) (counted (K.faults out.new) (K.wants out.new)) result }
    ensures audits { tool_in (map string_bytes words.now) ≡ Some Tool.Audit → (disk.new ≡ disk.old) × Audits (S.left src.old) (S.left src.new) (S.faults src.old) (S.faults src.new) (K.written out.old) (K.written out.new) (counted (K.faults out.old) (K.wants out.old)) (counted (K.faults out.new) (K.wants out.new)) result }
    ensures broken { result ≡ 12 → tool_in (map string_bytes words.now) ≡ Some Tool.Audit }
{
    match read_tool(words) {
        Some(Tool::Help) => help(out),
        Some(Tool::Show) => show(alloc, src, out),
        Some(Tool::Audit) => audit(alloc, src, out),
        None => code(run_command(alloc, words, src, disk, out)),
    }
}

fn run_command<S: Source, D: Disk, K: Sink>(
    alloc: Global,
    words: &[String],
    src: &mut S,
    disk: &mut D,
    out: &mut K,
) -> Status
    ensures words { (result ≡ Status.Words) ↔ (command_in (map string_bytes words.now) ≡ None) }
    ensures refused_words { result ≡ Status.Words → (src.new ≡ src.old) × (disk.new ≡ disk.old) × AppendsLine (K.written out.old) (K.written out.new) (counted (K.faults out.old) (K.wants out.old)) (counted (K.faults out.new) (K.wants out.new)) [] fault_words }
    ensures rows { Runs D.Disk disk.old disk.new (options_in (map string_bytes words.now)) (λ lanes first made. IsRow lanes first made (S.left src.old) (S.left src.new) (K.written out.old) (K.written out.new) (counted (K.faults out.old) (K.wants out.old)) (counted (K.faults out.new) (K.wants out.new)) result) }
    ensures cause { CommandCause (load_in (map string_bytes words.now)) (fault_counts (D.faults disk.old) (D.faults disk.new) (S.faults src.old) (S.faults src.new) (K.faults out.old)) (K.faults out.new) result }
    ensures no_further { IfSome (options_in (map string_bytes words.now)) (λ options. ReadsNoFurther options.lanes (S.left src.old) (S.last src.old) (S.last src.new)) }
    ensures misses { S.misses src.new ≤ S.misses src.old + 1 }
    ensures file { IsFileRow (D.told disk.old) (D.told disk.new) (K.written out.old) (K.written out.new) (counted (K.faults out.old) (K.wants out.old)) (counted (K.faults out.new) (K.wants out.new)) result }
    ensures opening { result ≡ Status.Disk → src.new ≡ src.old }
    ensures refused { result ≡ Status.Store → IsTelling D.Disk disk.old → (has_file (map string_bytes words.now) ≡ true) × (src.new ≡ src.old) }
    ensures refuses { has_file (map string_bytes words.now) ≡ true → IsTelling D.Disk disk.old → NoneLawful (D.told disk.old) → (src.new ≡ src.old) × IsUnopened result }
    ensures alone { has_file (map string_bytes words.now) ≡ false → IsLeftAlone (D.time disk.old) (D.told disk.old) (D.told disk.new) }
    ensures lists { asks_for_tickets (map string_bytes words.now) ≡ true → Lists (D.told disk.old) (λ tickets. ListingRow (listed tickets) (K.written out.old) (K.written out.new) result) }
    ensures opened_alone { asks_for_tickets (map string_bytes words.now) ≡ true → (src.new ≡ src.old) × IsOpenedAlone D.Disk disk.old disk.new }
    ensures gens { IfSome (load_in (map string_bytes words.now)) (λ load. (src.new ≡ src.old) × Generates D.Disk load.requests load.stored disk.old disk.new (K.written out.old) (K.written out.new) (counted (K.faults out.old) (K.wants out.old)) (counted (K.faults out.new) (K.wants out.new)) (code_of result)) }
{
    match read_words(words) {
        Some(Command::Replay(options)) => replay(alloc, options, src, disk, out),
        Some(Command::Tickets) => list_tickets(alloc, disk, out),
        Some(Command::Gen(load)) => run_load(alloc, load, disk, out),
        None => {
            complain(b"fault words\n", out);
            Status::Words
        }
    }
}

/// Runs a load through the broker.
fn run_load<D: Disk, K: Sink>(alloc: Global, load: Load, disk: &mut D, out: &mut K) -> Status
    requires { IsLoad load }
    ensures gens { Generates D.Disk load.requests load.stored disk.old disk.new (K.written out.old) (K.written out.new) (counted (K.faults out.old) (K.wants out.old)) (counted (K.faults out.new) (K.wants out.new)) (code_of result) }
    ensures cause { LoadCause (K.faults out.old) (K.faults out.new) result }
    ensures file { IsFileRow (D.told disk.old) (D.told disk.new) (K.written out.old) (K.written out.new) (counted (K.faults out.old) (K.wants out.old)) (counted (K.faults out.new) (K.wants out.new)) result }
    ensures refused { result ≡ Status.Store → IsTelling D.Disk disk.old → load.stored ≡ true }
    ensures refuses { load.stored ≡ true → IsTelling D.Disk disk.old → NoneLawful (D.told disk.old) → IsUnopened result }
    ensures alone { load.stored ≡ false → IsLeftAlone (D.time disk.old) (D.told disk.old) (D.told disk.new) }
{
    status_of(generate(alloc, load.requests, load.stored, disk, out))
}

fn status_of(status: mj_gen::Status) -> Status
    ensures { result ≡ status_as status }
{
    match status {
        mj_gen::Status::Done => Status::Done,
        mj_gen::Status::Store => Status::Store,
        mj_gen::Status::NoMemory => Status::NoMemory,
        mj_gen::Status::Disk => Status::Disk,
        mj_gen::Status::Write => Status::Write,
    }
}

/// Runs the script of the source with these options.
fn replay<S: Source, D: Disk, K: Sink>(
    alloc: Global,
    options: Options,
    src: &mut S,
    disk: &mut D,
    out: &mut K,
) -> Status
    requires { options.lanes ≤ 64 }
    ensures row { Runs D.Disk disk.old disk.new (Some options) (λ lanes first made. IsRow lanes first made (S.left src.old) (S.left src.new) (K.written out.old) (K.written out.new) (counted (K.faults out.old) (K.wants out.old)) (counted (K.faults out.new) (K.wants out.new)) result) }
    ensures cause { StatusCause (fault_counts (D.faults disk.old) (D.faults disk.new) (S.faults src.old) (S.faults src.new) (K.faults out.old)) (K.faults out.new) result }
    ensures no_further { ReadsNoFurther options.lanes (S.left src.old) (S.last src.old) (S.last src.new) }
    ensures misses { S.misses src.new ≤ S.misses src.old + 1 }
    ensures words { ¬ (result ≡ Status.Words) }
    ensures file { IsFileRow (D.told disk.old) (D.told disk.new) (K.written out.old) (K.written out.new) (counted (K.faults out.old) (K.wants out.old)) (counted (K.faults out.new) (K.wants out.new)) result }
    ensures opening { result ≡ Status.Disk → src.new ≡ src.old }
    ensures refused { result ≡ Status.Store → IsTelling D.Disk disk.old → (options.stored ≡ true) × (src.new ≡ src.old) }
    ensures refuses { options.stored ≡ true → IsTelling D.Disk disk.old → NoneLawful (D.told disk.old) → (src.new ≡ src.old) × IsUnopened result }
    ensures alone { options.stored ≡ false → IsLeftAlone (D.time disk.old) (D.told disk.old) (D.told disk.new) }
{
    let mut progress = Progress {
        lanes: options.lanes,
        pending: Vec::new(alloc),
        room: SCRIPT_BYTES,
        lines: 0,
    };
    let run = run_script(alloc, &mut progress, options, src, disk, out);
    finish(alloc, run.halt, run.events, out)
}
