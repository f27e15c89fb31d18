//! Worked runs of the machine, judged once and for all. The function does nothing.
ghost use Rattle.mj_self_audit.specs.AuditedRuns.{RequestsAreRouted, BusyLeasesAreLonger, BusyLeasesEnd, LapsedWorkersMayReturn, ReopenedLanesBeginAnew, MessagesSettleOneByOne, LeasesAreRecorded};

/// The transcripts of these runs are held to their end: the machine keeps the four laws in them.
pub fn the_machine_passes_its_audit()
    ensures requests_are_routed { RequestsAreRouted }
    ensures busy_leases_are_longer { BusyLeasesAreLonger }
    ensures busy_leases_end { BusyLeasesEnd }
    ensures lapsed_workers_may_return { LapsedWorkersMayReturn }
    ensures reopened_lanes_begin_anew { ReopenedLanesBeginAnew }
    ensures messages_settle_one_by_one { MessagesSettleOneByOne }

    // What a transcript of a run is, line by line.
    ensures leases_are_recorded { LeasesAreRecorded }
{}
