//! The run of follow over a link and a disk.
ghost use Rattle.std.specs.Prelude.{◌≡◌, ◌≢◌, ◌≤◌, ◌<◌, ◌^◌, ◌∷◌, [], ℕ, List, Option, Some, true, false, is_some, length, OnOk, OnErr, IfOk, IfErr};
ghost use Rattle.mj_base.specs.Linking.{Tells};
ghost use Rattle.mj_base.specs.declared.link.LinkEntry.{LinkEntry as AnEntry};
ghost use Rattle.mj_base.specs.declared.link.LinkEvent.{LinkEvent as AnEvent};
ghost use Rattle.mj_copy.specs.FollowRules.{follow_opened, follow_steps};
ghost use Rattle.mj_copy.specs.FollowStands.{IsAppend, IsTurn, following_of};
ghost use Rattle.mj_copy.specs.declared.awaits.Awaits.TheVariants as waits;
ghost use Rattle.mj_copy.specs.declared.follow.Follow.{Follow as AnEnd};
ghost use Rattle.mj_copy.specs.declared.phase.Phase.TheVariants.{Going};
ghost use Rattle.mj_copy_file.specs.Logs.{AppendsOne, IsHeld, IsNext, Knows, LeavesEither, OpensLog};
ghost use Rattle.mj_copy_file.specs.declared.log.Log.{Log as ALog};
ghost use Rattle.mj_copying.specs.FollowRun.{Copying, entries_of, new_copying};
ghost use Rattle.mj_copying.specs.FollowState.{Began, Breaks, BrokenBy, DiskCause, Ended, Goes, HaltCause, Halts, IsCutIn, IsRead, IsRunning, IsWhyOf, OpenCause, Performs, Runs, Stopped, Turned, goes_behind};
ghost use Rattle.mj_copying.specs.Passing.{AreLater, WriteCause, counts, entry_of};
ghost use Rattle.mj_disk.specs.DiskModel.{CrashesAs, History};
ghost use Rattle.mj_journal.specs.Opening.{IsImageOrOpensAlike};

use super::reading::read_event;
use super::stop::Stop;
use super::writing::write;
use mj_base::{Link, LinkEvent, NoMemory};
use mj_copy::{Awaits, Follow, FollowAct, FollowActs, Phase};
use mj_copy_file::{Log, LogFault};
use mj_disk::Disk;
use mj_journal::OpenFault;
use std::alloc::Global;
use std::sync::Wait;

/// What a run of follow came to.
#[derive(Clone, Copy, Debug, PartialEq, Eq)]
pub enum FollowEnding {
    /// The file has all commands, so many.
    Done(u64),
    /// The tries are used. The file has so many commands, once it was opened.
    NoAnswer(u64),
}

/// Why a run of follow broke off.
#[derive(Clone, Copy, Debug, PartialEq, Eq)]
pub enum FollowStop {
    /// There was no memory, or something failed.
    Broken(Stop),
    /// The file isn't opened.
    Unopened(OpenFault),
    /// The file has this base, and the other end's file another one.
    OtherBase(u64),
}

impl From<Stop> for FollowStop {
    ghost use Rattle.std.specs.Prelude.{◌≡◌};
    ghost use Rattle.mj_copying.specs.declared.following.FollowStop.TheVariants.{Broken};

    ghost from_gives = { λ stop halt. halt ≡ Broken stop };

    fn from(stop: Stop) -> FollowStop {
        FollowStop::Broken(stop)
    }
}

/// Copies what the other end gives to the disk's file, until it has all, or the tries are used.
pub fn run_follow<R: Wait, L: Link, D: Disk>(
    rt: &R,
    alloc: Global,
    tries: u32,
    link: &mut L,
    disk: &mut D,
) -> Result<FollowEnding, FollowStop>
    ensures followed { IfOk result (λ ending. (end : AnEnd) × (log : Option ALog) × (goes : Goes D.Disk (D.told disk.old) (D.time disk.old) (new_copying tries) (L.told link.old) (L.told link.new) end log disk.new) × Ended ending goes.last.following) }
    ensures halted { IfErr result (λ stop. Halts D.Disk (D.told disk.old) (D.time disk.old) (new_copying tries) (L.told link.old) (L.told link.new) stop disk.new) }
    ensures cause { IfErr result (λ stop. HaltCause stop (counts (L.read_faults link.old) (L.write_faults link.old) (D.faults disk.old)) (counts (L.read_faults link.new) (L.write_faults link.new) (D.faults disk.new))) }
    ensures later { AreLater (counts (L.read_faults link.old) (L.write_faults link.old) (D.faults disk.old)) (counts (L.read_faults link.new) (L.write_faults link.new) (D.faults disk.new)) }
{
    let mut end = match Follow::new(alloc, tries) {
        Ok(end) => end,
        Err(NoMemory) => return Err(FollowStop::Broken(Stop::NoMemory)),
    };
    let mut log = None;
    match meet_all(rt, alloc, &mut end, &mut log, link, disk) {
        Ok(()) => Ok(ending_of(&end)),
        Err(stop) => Err(stop),
    }
}

/// How an end that is over ended.
fn ending_of(end: &Follow) -> FollowEnding
    requires { (following_of end.now).phase ≢ Going }
    ensures { Ended result (following_of end.now) }
{
    if end.phase() == Phase::Finished {
        FollowEnding::Done(end.count())
    } else {
        FollowEnding::NoAnswer(end.count())
    }
}

/// Turn by turn, until the end is over.
fn meet_all<R: Wait, L: Link, D: Disk>(
    rt: &R,
    alloc: Global,
    end: &mut Follow,
    log: &mut Option<Log>,
    link: &mut L,
    disk: &mut D,
) -> Result<(), FollowStop>
    requires ready { end.old.spent ≡ false }
    requires runs { IsRunning D.Disk end.old log.old disk.old }
    ensures goes { OnOk result ((start : Option History) (since : ℕ) (c : Copying) → Runs D.Disk start since c end.old log.old disk.old → Goes D.Disk start since c (L.told link.old) (L.told link.new) end.new log.new disk.new) }
    ensures over { OnOk result ((following_of end.new).phase ≢ Going) }
    ensures halted { IfErr result (λ stop. (start : Option History) (since : ℕ) (c : Copying) → Runs D.Disk start since c end.old log.old disk.old → Halts D.Disk start since c (L.told link.old) (L.told link.new) stop disk.new) }
    ensures cause { IfErr result (λ stop. HaltCause stop (counts (L.read_faults link.old) (L.write_faults link.old) (D.faults disk.old)) (counts (L.read_faults link.new) (L.write_faults link.new) (D.faults disk.new))) }
    ensures later { AreLater (counts (L.read_faults link.old) (L.write_faults link.old) (D.faults disk.old)) (counts (L.read_faults link.new) (L.write_faults link.new) (D.faults disk.new)) }
{
    for _ in rt.forever() {
        if end.phase() != Phase::Going {
            return Ok(());
        }
        match turn(alloc, end, log, link, disk) {
            Ok(()) => {}
            Err(stop) => return Err(stop),
        }
    }
    unreachable!()
}

/// One turn: what the end waits for, and the acts that follow.
fn turn<L: Link, D: Disk>(
    alloc: Global,
    end: &mut Follow,
    log: &mut Option<Log>,
    link: &mut L,
    disk: &mut D,
) -> Result<(), FollowStop>
    requires ready { end.old.spent ≡ false }
    requires runs { IsRunning D.Disk end.old log.old disk.old }
    ensures ready { OnOk result (end.new.spent ≡ false) }
    ensures turned { OnOk result ((start : Option History) (since : ℕ) (c : Copying) → Runs D.Disk start since c end.old log.old disk.old → Turned D.Disk start since c (L.told link.old) (L.told link.new) end.new log.new disk.new) }
    ensures cut { IfErr result (λ stop. (start : Option History) (since : ℕ) (c : Copying) → Runs D.Disk start since c end.old log.old disk.old → IsCutIn D.Disk start since c (L.told link.old) (L.told link.new) stop disk.new) }
    ensures cause { IfErr result (λ stop. HaltCause stop (counts (L.read_faults link.old) (L.write_faults link.old) (D.faults disk.old)) (counts (L.read_faults link.new) (L.write_faults link.new) (D.faults disk.new))) }
    ensures later { AreLater (counts (L.read_faults link.old) (L.write_faults link.old) (D.faults disk.old)) (counts (L.read_faults link.new) (L.write_faults link.new) (D.faults disk.new)) }
{
    let acts = match advance(alloc, end, log, link, disk) {
        Ok(acts) => acts,
        Err(stop) => return Err(stop),
    };
    match perform_all(acts.as_slice(), link) {
        Ok(()) => Ok(()),
        Err(stop) => Err(FollowStop::Broken(stop)),
    }
}

/// Does what the end waits for; gives the acts that follow.
fn advance<L: Link, D: Disk>(
    alloc: Global,
    end: &mut Follow,
    log: &mut Option<Log>,
    link: &mut L,
    disk: &mut D,
) -> Result<FollowActs, FollowStop>
    requires ready { end.old.spent ≡ false }
    requires runs { IsRunning D.Disk end.old log.old disk.old }
    ensures ready { OnOk result (end.new.spent ≡ false) }
    ensures began { IfOk result (λ acts. (start : Option History) (since : ℕ) (c : Copying) → Runs D.Disk start since c end.old log.old disk.old → (read : List AnEntry) × Tells (L.told link.old) (L.told link.new) read × Began D.Disk start since c read acts.items end.new log.new disk.new) }
    ensures stopped { IfErr result (λ stop. (start : Option History) (since : ℕ) (c : Copying) → Runs D.Disk start since c end.old log.old disk.old → Stopped D.Disk start since c (L.told link.old) (L.told link.new) stop disk.new) }
    ensures cause { IfErr result (λ stop. HaltCause stop (counts (L.read_faults link.old) (L.write_faults link.old) (D.faults disk.old)) (counts (L.read_faults link.new) (L.write_faults link.new) (D.faults disk.new))) }
    ensures later { AreLater (counts (L.read_faults link.old) (L.write_faults link.old) (D.faults disk.old)) (counts (L.read_faults link.new) (L.write_faults link.new) (D.faults disk.new)) }
{
    match end.awaits() {
        Awaits::Link => take(alloc, end, link),
        Awaits::File(base) => {
            let base = *base;
            open(alloc, end, log, base, disk)
        }
        Awaits::Append(payload) => {
            let done = match append(alloc, log, payload.as_slice(), disk) {
                Ok(done) => done,
                Err(stop) => return Err(FollowStop::Broken(stop)),
            };
            go_on(alloc, end, done)
        }
    }
}

/// Takes what the link gives next.
fn take<L: Link>(alloc: Global, end: &mut Follow, link: &mut L) -> Result<FollowActs, FollowStop>
    requires ready { end.old.spent ≡ false }
    requires waits { (following_of end.old).awaits ≡ waits.Link }
    ensures ready { OnOk result (end.new.spent ≡ false) }
    ensures took { IfOk result (λ acts. (e : AnEvent) × Tells (L.told link.old) (L.told link.new) (entry_of e ∷ []) × IsTurn end.new acts.items (follow_steps e (following_of end.old))) }
    ensures stopped { OnErr result (IsRead (L.told link.old) (L.told link.new)) }
    ensures cause { IfErr result (λ stop. BrokenBy stop (L.read_faults link.old) (L.read_faults link.new)) }
    ensures reads { L.read_faults link.old ≤ L.read_faults link.new }
    ensures writes { L.write_faults link.old ≤ L.write_faults link.new }
{
    let event = match read_event(alloc, link) {
        Ok(event) => event,
        Err(stop) => return Err(FollowStop::Broken(stop)),
    };
    match end.step(alloc, event) {
        Ok(acts) => Ok(acts),
        Err(NoMemory) => Err(FollowStop::Broken(Stop::NoMemory)),
    }
}

/// Opens the file, with this base where it is made anew, and goes on.
fn open<D: Disk>(
    alloc: Global,
    end: &mut Follow,
    log: &mut Option<Log>,
    base: u64,
    disk: &mut D,
) -> Result<FollowActs, FollowStop>
    requires ready { end.old.spent ≡ false }
    requires waits { (following_of end.old).awaits ≡ waits.File base }
    requires low { 1 ≤ base }
    requires high { base ≤ 2 ^ 61 }
    ensures ready { OnOk result (end.new.spent ≡ false) }
    ensures opened { IfOk result (λ acts. (new : ALog) × (log.new ≡ Some new) × (new.base ≡ base) × OpensLog D.Disk base disk.old new disk.new × IsTurn end.new acts.items (follow_opened (length new.spots.items) (following_of end.old))) }
    ensures why { IfErr result (λ stop. IsWhyOf (D.told disk.old) base (D.told disk.new) stop) }
    ensures cause { IfErr result (λ stop. OpenCause stop (D.faults disk.old) (D.faults disk.new)) }
    ensures crash { CrashesAs IsImageOrOpensAlike (D.time disk.old, D.time disk.new) (D.told disk.old) (D.told disk.new) }
    ensures telling { is_some (D.told disk.new) ≡ is_some (D.told disk.old) }
    ensures later { D.time disk.old ≤ D.time disk.new }
    ensures count { D.faults disk.old ≤ D.faults disk.new }
{
    let found = match Log::open(alloc, disk, base) {
        Ok(found) => found,
        Err(fault) => return Err(FollowStop::Unopened(fault)),
    };
    if found.base() != base {
        return Err(FollowStop::OtherBase(found.base()));
    }
    let count = found.count();
    *log = Some(found);
    match end.opened(alloc, count) {
        Ok(acts) => Ok(acts),
        Err(NoMemory) => Err(FollowStop::Broken(Stop::NoMemory)),
    }
}

/// Appends a payload to the open file; answers whether it may come next.
fn append<D: Disk>(
    alloc: Global,
    log: &mut Option<Log>,
    payload: &[u8],
    disk: &mut D,
) -> Result<bool, Stop>
    requires { (l : ALog) × (log.old ≡ Some l) × IsHeld D.Disk l disk.old }
    ensures appended { IfOk result (λ done. done ≡ true → (l : ALog) → log.old ≡ Some l → (m : ALog) × (log.new ≡ Some m) × (m.base ≡ l.base) × AppendsOne D.Disk payload.now l disk.old m disk.new) }
    ensures refused { IfOk result (λ done. done ≡ false → (log.new ≡ log.old) × (disk.new ≡ disk.old) × ((l : ALog) → log.old ≡ Some l → (payloads : List (List ℕ)) → Knows payloads l → ¬ IsNext l.base payloads payload.now)) }
    ensures crash { (l : ALog) → log.old ≡ Some l → LeavesEither D.Disk payload.now l disk.old disk.new }
    ensures cause { IfErr result (λ stop. DiskCause stop (D.faults disk.old) (D.faults disk.new)) }
    ensures telling { is_some (D.told disk.new) ≡ is_some (D.told disk.old) }
    ensures later { D.time disk.old ≤ D.time disk.new }
    ensures count { D.faults disk.old ≤ D.faults disk.new }
{
    match log {
        Some(log) => match log.append(alloc, disk, payload) {
            Ok(done) => Ok(done),
            Err(LogFault::NoMemory) => Err(Stop::NoMemory),
            Err(LogFault::Disk) => Err(Stop::Disk),
        },
        None => unreachable!(),
    }
}

/// Goes on behind an append that was made, or was refused.
fn go_on(alloc: Global, end: &mut Follow, done: bool) -> Result<FollowActs, FollowStop>
    requires ready { end.old.spent ≡ false }
    requires waits { IsAppend (following_of end.old).awaits }
    requires few { (following_of end.old).count < 2 ^ 62 }
    ensures ready { OnOk result (end.new.spent ≡ false) }
    ensures turn { IfOk result (λ acts. IsTurn end.new acts.items (goes_behind done (following_of end.old))) }
    ensures cause { IfErr result (λ stop. stop ≡ FollowStop.Broken Stop.NoMemory) }
{
    if done {
        match end.appended(alloc) {
            Ok(acts) => Ok(acts),
            Err(NoMemory) => Err(FollowStop::Broken(Stop::NoMemory)),
        }
    } else {
        match end.step(alloc, LinkEvent::End) {
            Ok(acts) => Ok(acts),
            Err(NoMemory) => Err(FollowStop::Broken(Stop::NoMemory)),
        }
    }
}

/// Does these acts, up to one that fails.
fn perform_all<L: Link>(acts: &[FollowAct], link: &mut L) -> Result<(), Stop>
    ensures done { OnOk result (Performs (L.told link.old) (L.told link.new) acts.now) }
    ensures broken { OnErr result (Breaks (L.told link.old) (L.told link.new) acts.now) }
    ensures cause { IfErr result (λ stop. WriteCause stop (L.write_faults link.old) (L.write_faults link.new)) }
    ensures reads { L.read_faults link.old ≤ L.read_faults link.new }
    ensures writes { L.write_faults link.old ≤ L.write_faults link.new }
{
    for act in acts {
        match perform(act, link) {
            Ok(()) => {}
            Err(stop) => return Err(stop),
        }
    }
    Ok(())
}

fn perform<L: Link>(act: &FollowAct, link: &mut L) -> Result<(), Stop>
    ensures done { OnOk result (Tells (L.told link.old) (L.told link.new) (entries_of act.now)) }
    ensures broken { OnErr result (L.told link.new ≡ L.told link.old) }
    ensures cause { IfErr result (λ stop. WriteCause stop (L.write_faults link.old) (L.write_faults link.new)) }
    ensures reads { L.read_faults link.old ≤ L.read_faults link.new }
    ensures writes { L.write_faults link.old ≤ L.write_faults link.new }
{
    match act {
        FollowAct::Write(octets) => write(octets.as_slice(), link),
        FollowAct::Reopen => Ok(link.reopen()?),
        FollowAct::Open(_) | FollowAct::Append(_) | FollowAct::Done | FollowAct::NoAnswer => Ok(()),
    }
}
