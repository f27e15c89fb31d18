ghost use Rattle.std.specs.Prelude.{◌≡◌, ◌<◌, ◌≤◌, ◌^◌, ℕ, List, [], true, false, None, IfOk, IfErr, IsErr, OnOk, OnErr, IsErrOf};
ghost use Rattle.mj_base.specs.LawfulLimits.{are_lawful};
ghost use Rattle.mj_base.specs.Rising.{Rose};
ghost use Rattle.mj_base.specs.declared.limits.Limits.{Limits as AnyLimits};
ghost use Rattle.mj_broker.specs.Handling.{IsBroker, limits_of};
ghost use Rattle.mj_disk.specs.DiskModel.{Turns};
ghost use Rattle.mj_journal.specs.Opening.{KeepsFile};
ghost use Rattle.mj_keeper.specs.Standing.{IsSound};
ghost use Rattle.mj_keeper.specs.declared.keeper.Shelf.TheVariants.{Absent};
ghost use Rattle.mj_machine.specs.MachineState.{Machine, start_with};
ghost use Rattle.mj_machine.specs.StoreState.{no_store, opened_store};
ghost use Rattle.mj_store.specs.Opening.{LeavesBegun, NoneLawful, OpensLawfully};
ghost use Rattle.mj_store.specs.Standing.{IsTelling};
ghost use Rattle.mj_tickets.specs.declared.command.TicketCmd.{TicketCmd as AnyCmd};
ghost use Rattle.mj_serve.specs.Counts.{no_counts};
ghost use Rattle.mj_serve.specs.Faults.{IsFileFault, IsUnserved};
ghost use Rattle.mj_serve.specs.Running.{Ran, RanOut, Stood};
ghost use Rattle.mj_serve.specs.Serving.{EndedOver, EndedWithout, IsLeftAlone, ServedOver, ServedWithout};

use crate::fault::ServeFault;
use crate::ports::Ports;
use crate::summary::Summary;
use crate::turn::{fault_of, turn};
use mj_base::{Limits, NoMemory};
use mj_broker::Broker;
use mj_disk::Disk;
use mj_store::Store;
use std::alloc::Global;

/// Takes the ports' events until they give the end, and gives them what the broker does at each. With a store the file is
/// opened first; without one the disk is synced once, and not touched again. The ids of tickets are drawn from the seed.
pub fn serve<P: Ports, D: Disk>(
    alloc: Global,
    limits: &Limits,
    seed: [u8; 32],
    stored: bool,
    ports: &mut P,
    disk: &mut D,
) -> Result<Summary, ServeFault>
    requires lawful { stored ≡ true → are_lawful limits.now ≡ true }
    requires lanes { P.lanes_in ports.old ≤ limits.now.lanes }
    requires going { P.stopped ports.old ≡ false }
    requires few { P.left ports.old < 2 ^ 60 }

    // What was given is what the machine does, over the file's commands, or without a store.
    ensures served { IfOk result (λ summary. stored ≡ true → P.stand ports.old ports.old [] [] → (base : ℕ) (commands : List AnyCmd) → OpensLawfully base commands (D.told disk.old) → ServedOver P.stand D.Disk ports.old disk.old limits.now seed base commands ports.new disk.new summary) }
    ensures served_without { IfOk result (λ summary. stored ≡ false → P.stand ports.old ports.old [] [] → ServedWithout P.stand D.Disk ports.old disk.old limits.now ports.new disk.new summary) }
    ensures stopped { OnOk result (P.stopped ports.new ≡ true) }

    // Whatever the disk tells, the ports stand for some events and entries.
    ensures stood { P.stand ports.old ports.old [] [] → Stood P.stand ports.old ports.new }

    // So it is up to where a run ended early.
    ensures ended { OnErr result (stored ≡ true → P.stand ports.old ports.old [] [] → (base : ℕ) (commands : List AnyCmd) → OpensLawfully base commands (D.told disk.old) → EndedOver P.stand D.Disk ports.old disk.old limits.now seed base commands ports.new disk.new) }
    ensures ended_without { OnErr result (stored ≡ false → P.stand ports.old ports.old [] [] → EndedWithout P.stand D.Disk ports.old disk.old limits.now ports.new disk.new) }

    // Without a store the bytes are as they were, and a crash leaves nothing new.
    ensures plain { stored ≡ false → IsLeftAlone (D.time disk.old) (D.told disk.old) (D.told disk.new) }

    // A fault of the disk ends a run at its opening alone.
    ensures cause { IsErrOf result ServeFault.DiskFault → Rose (D.faults disk.old) (D.faults disk.new) × (ports.new ≡ ports.old) }

    // A file is refused at the opening, for what is in it, and is left as it was; never one that opens as a lawful list.
    ensures unopened { IfErr result (λ fault. IsTelling D.Disk disk.old → IsUnserved fault (D.told disk.old) (D.told disk.new)) }
    ensures refused { IfErr result (λ fault. IsFileFault fault → IsTelling D.Disk disk.old → (stored ≡ true) × (ports.new ≡ ports.old) × Turns KeepsFile (D.told disk.old) (D.told disk.new)) }
    ensures lawful { IfErr result (λ fault. IsFileFault fault → NoneLawful (D.told disk.old)) }

    // No event is taken over a file that opens as no lawful list.
    ensures unlawful { stored ≡ true → IsTelling D.Disk disk.old → NoneLawful (D.told disk.old) → IsErr result × (ports.new ≡ ports.old) }
{
    if stored {
        serve_over(alloc, limits, seed, ports, disk)
    } else {
        serve_without(alloc, limits, seed, ports, disk)
    }
}

/// Serves over a file.
fn serve_over<P: Ports, D: Disk>(
    alloc: Global,
    limits: &Limits,
    seed: [u8; 32],
    ports: &mut P,
    disk: &mut D,
) -> Result<Summary, ServeFault>
    requires lawful { are_lawful limits.now ≡ true }
    requires lanes { P.lanes_in ports.old ≤ limits.now.lanes }
    requires going { P.stopped ports.old ≡ false }
    requires few { P.left ports.old < 2 ^ 60 }
    ensures served { IfOk result (λ summary. P.stand ports.old ports.old [] [] → (base : ℕ) (commands : List AnyCmd) → OpensLawfully base commands (D.told disk.old) → ServedOver P.stand D.Disk ports.old disk.old limits.now seed base commands ports.new disk.new summary) }
    ensures stopped { OnOk result (P.stopped ports.new ≡ true) }
    ensures stood { P.stand ports.old ports.old [] [] → Stood P.stand ports.old ports.new }
    ensures ended { OnErr result (P.stand ports.old ports.old [] [] → (base : ℕ) (commands : List AnyCmd) → OpensLawfully base commands (D.told disk.old) → EndedOver P.stand D.Disk ports.old disk.old limits.now seed base commands ports.new disk.new) }
    ensures cause { IsErrOf result ServeFault.DiskFault → Rose (D.faults disk.old) (D.faults disk.new) × (ports.new ≡ ports.old) }
    ensures unopened { IfErr result (λ fault. IsTelling D.Disk disk.old → IsUnserved fault (D.told disk.old) (D.told disk.new)) }
    ensures refused { IfErr result (λ fault. IsFileFault fault → IsTelling D.Disk disk.old → (ports.new ≡ ports.old) × Turns KeepsFile (D.told disk.old) (D.told disk.new)) }
    ensures lawful { IfErr result (λ fault. IsFileFault fault → NoneLawful (D.told disk.old)) }
    ensures unlawful { IsTelling D.Disk disk.old → NoneLawful (D.told disk.old) → IsErr result × (ports.new ≡ ports.old) }
{
    match open(alloc, limits, seed, disk) {
        Ok(mut broker) => run(alloc, &mut broker, ports, disk),
        Err(fault) => Err(fault),
    }
}

/// Serves without a store.
fn serve_without<P: Ports, D: Disk>(
    alloc: Global,
    limits: &Limits,
    seed: [u8; 32],
    ports: &mut P,
    disk: &mut D,
) -> Result<Summary, ServeFault>
    requires lanes { P.lanes_in ports.old ≤ limits.now.lanes }
    requires going { P.stopped ports.old ≡ false }
    requires few { P.left ports.old < 2 ^ 60 }
    ensures served { IfOk result (λ summary. P.stand ports.old ports.old [] [] → ServedWithout P.stand D.Disk ports.old disk.old limits.now ports.new disk.new summary) }
    ensures stopped { OnOk result (P.stopped ports.new ≡ true) }
    ensures stood { P.stand ports.old ports.old [] [] → Stood P.stand ports.old ports.new }
    ensures ended { OnErr result (P.stand ports.old ports.old [] [] → EndedWithout P.stand D.Disk ports.old disk.old limits.now ports.new disk.new) }
    ensures plain { IsLeftAlone (D.time disk.old) (D.told disk.old) (D.told disk.new) }
    ensures cause { IsErrOf result ServeFault.DiskFault → Rose (D.faults disk.old) (D.faults disk.new) × (ports.new ≡ ports.old) }
    ensures refused { IfErr result (λ fault. IsFileFault fault → D.told disk.old ≡ None) }
{
    match begin(alloc, limits, seed, disk) {
        Ok(mut broker) => run(alloc, &mut broker, ports, disk),
        Err(fault) => Err(fault),
    }
}

/// The broker over the file, with the tickets in it.
fn open<D: Disk>(
    alloc: Global,
    limits: &Limits,
    seed: [u8; 32],
    disk: &mut D,
) -> Result<Broker, ServeFault>
    requires lawful { are_lawful limits.now ≡ true }
    ensures begun { IfOk result (λ broker. (base : ℕ) (commands : List AnyCmd) → OpensLawfully base commands (D.told disk.old) → IsBroker D.Disk broker disk.new (start_with limits.now (opened_store seed base commands))) }
    ensures sound { IfOk result (λ broker. IsSound D.Disk broker.keeper disk.new) }
    ensures limits { IfOk result (λ broker. limits_of broker ≡ limits.now) }
    ensures fresh { IfOk result (λ broker. broker.spent ≡ false) }
    ensures first { IfOk result (λ broker. broker.state.next ≡ 1) }
    ensures opened { OnOk result (IsTelling D.Disk disk.old → (base : ℕ) × (commands : List AnyCmd) × OpensLawfully base commands (D.told disk.old)) }
    ensures crash { LeavesBegun D.Disk disk.old disk.new }
    ensures kept { Turns KeepsFile (D.told disk.old) (D.told disk.new) }
    ensures unopened { IfErr result (λ fault. IsUnserved fault (D.told disk.old) (D.told disk.new)) }
    ensures lawful { IfErr result (λ fault. IsFileFault fault → NoneLawful (D.told disk.old)) }
    ensures cause { IsErrOf result ServeFault.DiskFault → Rose (D.faults disk.old) (D.faults disk.new) }
    ensures silent { D.told disk.new ≡ None → D.told disk.old ≡ None }
    ensures count { D.faults disk.old ≤ D.faults disk.new }
{
    match Store::open(alloc, limits, disk) {
        Ok(store) => match Broker::new(alloc, limits, seed, Some(store)) {
            Ok(broker) => Ok(broker),
            Err(NoMemory) => Err(ServeFault::NoMemory),
        },
        Err(fault) => Err(fault_of(fault)),
    }
}

/// A broker without a store, over a disk that is synced.
fn begin<D: Disk>(
    alloc: Global,
    limits: &Limits,
    seed: [u8; 32],
    disk: &mut D,
) -> Result<Broker, ServeFault>
    ensures begun { IfOk result (λ broker. IsBroker D.Disk broker disk.new (start_with limits.now no_store)) }
    ensures sound { IfOk result (λ broker. IsSound D.Disk broker.keeper disk.new) }
    ensures absent { IfOk result (λ broker. broker.keeper.shelf ≡ Absent) }
    ensures limits { IfOk result (λ broker. limits_of broker ≡ limits.now) }
    ensures fresh { IfOk result (λ broker. broker.spent ≡ false) }
    ensures first { IfOk result (λ broker. broker.state.next ≡ 1) }
    ensures plain { IsLeftAlone (D.time disk.old) (D.told disk.old) (D.told disk.new) }
    ensures kind { IfErr result (λ fault. ¬ IsFileFault fault) }
    ensures cause { IsErrOf result ServeFault.DiskFault → Rose (D.faults disk.old) (D.faults disk.new) }
    ensures silent { D.told disk.new ≡ None → D.told disk.old ≡ None }
    ensures count { D.faults disk.old ≤ D.faults disk.new }
{
    match disk.sync() {
        Ok(()) => {}
        Err(_failed) => return Err(ServeFault::DiskFault),
    }
    match Broker::new(alloc, limits, seed, None) {
        Ok(broker) => Ok(broker),
        Err(NoMemory) => Err(ServeFault::NoMemory),
    }
}

/// Takes one event after another.
fn run<P: Ports, D: Disk>(
    alloc: Global,
    broker: &mut Broker,
    ports: &mut P,
    disk: &mut D,
) -> Result<Summary, ServeFault>
    requires going { P.stopped ports.old ≡ false }
    requires lanes { P.lanes_in ports.old ≤ (limits_of broker.old).lanes }
    requires few { P.left ports.old < 2 ^ 60 }
    requires first { broker.old.state.next ≡ 1 }
    requires fresh { broker.old.spent ≡ false }
    requires sound { IsSound D.Disk broker.old.keeper disk.old }
    ensures ran { IfOk result (λ summary. (origin : P) (began : D) (limits : AnyLimits) (first : Machine) → Ran P.stand D.Disk origin began limits first ports.old disk.old broker.old no_counts → Ran P.stand D.Disk origin began limits first ports.new disk.new broker.new summary) }
    ensures ran_out { OnErr result ((origin : P) (began : D) (limits : AnyLimits) (first : Machine) → Ran P.stand D.Disk origin began limits first ports.old disk.old broker.old no_counts → RanOut P.stand D.Disk origin began limits first ports.new disk.new) }
    ensures stood { (origin : P) → Stood P.stand origin ports.old → Stood P.stand origin ports.new }
    ensures refused { IfErr result (λ fault. IsFileFault fault → D.told disk.old ≡ None) }
    ensures kind { ¬ IsErrOf result ServeFault.DiskFault }
    ensures plain { broker.old.keeper.shelf ≡ Absent → D.told disk.new ≡ D.told disk.old }
    ensures stopped { OnOk result (P.stopped ports.new ≡ true) }
{
    let mut summary = Summary {
        events: 0,
        pieces: 0,
    };
    while turn(alloc, broker, ports, disk, &mut summary)? {}
    Ok(summary)
}
