//! What the machine does in worked runs, written out by hand and computed from its definitions. The function does
//! nothing.
ghost use Rattle.mj_machine.specs.ClientWorkerRuns.{QuestionsAreAnswered, RequestsAreRouted, ServicesAreKeptApart, ForeignRepliesAreRefused, ReadyTwiceIsRefused, StrangersAreRefused, RolesAreKept, RepliesToTheGoneAreDropped, RepliesToThePassedOverAreDropped, RequestsOfTheGoneAreDropped, ReopenedLanesBeginAnew, ReservedNamesAreRefused, MessagesSettleOneByOne};
ghost use Rattle.mj_machine.specs.LeaseRuns.{WaitingLeasesEnd, BusyLeasesAreLonger, BusyLeasesEnd, LapsedWorkersMayReturn, HeartbeatsAreSent, RequestsPutHeartbeatsOff, WordsRenewLeases, MomentsNeverGoBack, LongLeasesBeginAtTheRequest};
ghost use Rattle.mj_machine.specs.VersionRuns.{PartialRepliesArePassedOn, LeadsAreKept, RefusalsAreInTheRightVersion, LeavingIsTakenInAnyVersion, PartialRepliesRenewLeases, TheLongSession};
ghost use Rattle.mj_machine.specs.LimitRuns.{QueuesFillByNumber, QueuesFillByWeight, QueuesFillByOneByte, WaitingWorkersNeedNoQueue, SlowPeersAreCutOff, BytesOnTheWayAreCounted, BytesOnTheWayAreCountedOneByOne, SlowWorkersLoseTheirRequest, EveryEventSettles, SettlingComesLast, TheGoneAreNotSettled};
ghost use Rattle.mj_machine.specs.ByteRuns.{PiecesAreRead, SingleBytesAreRead, LongSizesAreRead, OtherMechanismsAreRefused, OlderVersionsAreRefused, FaultsEndConnections, LongMessagesAreRefused, RequestsAreRoutedAsBytes};
ghost use Rattle.mj_machine.specs.StoreRuns.{TicketsAreServed, TicketsAreKept, FilesGrow, TicketsOutliveTheirClients, TicketsOutliveLeases, TicketsOutliveSlowWorkers, TicketsGoBackToTheEnd, ClosedTicketsAreDropped, LateRepliesAreDropped, PartialRepliesAreNotKept, TheLongSessionKeeps, TheSessionsCommands, TheNextRunGoesOn, TitanicsNamesAreReserved, TitanicsNamesAreFree, StoresFillByNumber, StoresFillBySize, StoresFillByOneByte, BadRequestsAreRefused, IdsAreWhole};
ghost use Rattle.mj_machine.specs.ShutRuns.{LostAcceptsAreTriedAgain, FoundAcceptsAreTickets, LostRepliesAreServedAgain, FoundRepliesAreShown, LostClosesLeaveTheTicket, FoundClosesCloseTheTicket, AppendsBehindAnOpeningFail, FailedDispatchesSendNothing, DispatchesFailAgain, FailedDispatchesSetNoMark, FailedDispatchesPutTheWorkerLast, FailedReadingsAreAskedForAgain, DoubtsOutliveFailedOpenings, BadRequestsDontOpenTheStore, TradeGoesOn, TicketsWaitForTheStore, HeldTicketsAreNotQueuedAgain, LeavingWorkersTakeTicketsAlong, RepliesOpenTheStore, RepliesThatCantBeKeptAreDropped};

/// The definitions give what each worked run says.
pub fn the_worked_runs()
    // Clients and workers of version 0.1.
    ensures questions_are_answered { QuestionsAreAnswered }
    ensures requests_are_routed { RequestsAreRouted }
    ensures services_are_kept_apart { ServicesAreKeptApart }
    ensures foreign_replies_are_refused { ForeignRepliesAreRefused }
    ensures ready_twice_is_refused { ReadyTwiceIsRefused }
    ensures strangers_are_refused { StrangersAreRefused }
    ensures roles_are_kept { RolesAreKept }
    ensures replies_to_the_gone_are_dropped { RepliesToTheGoneAreDropped }
    ensures replies_to_the_passed_over_are_dropped { RepliesToThePassedOverAreDropped }
    ensures requests_of_the_gone_are_dropped { RequestsOfTheGoneAreDropped }
    ensures reopened_lanes_begin_anew { ReopenedLanesBeginAnew }
    ensures reserved_names_are_refused { ReservedNamesAreRefused }
    ensures messages_settle_one_by_one { MessagesSettleOneByOne }

    // Heartbeats and leases.
    ensures waiting_leases_end { WaitingLeasesEnd }
    ensures busy_leases_are_longer { BusyLeasesAreLonger }
    ensures busy_leases_end { BusyLeasesEnd }
    ensures lapsed_workers_may_return { LapsedWorkersMayReturn }
    ensures heartbeats_are_sent { HeartbeatsAreSent }
    ensures requests_put_heartbeats_off { RequestsPutHeartbeatsOff }
    ensures words_renew_leases { WordsRenewLeases }
    ensures moments_never_go_back { MomentsNeverGoBack }
    ensures long_leases_begin_at_the_request { LongLeasesBeginAtTheRequest }

    // Version 0.2, and both together.
    ensures partial_replies_are_passed_on { PartialRepliesArePassedOn }
    ensures leads_are_kept { LeadsAreKept }
    ensures refusals_are_in_the_right_version { RefusalsAreInTheRightVersion }
    ensures leaving_is_taken_in_any_version { LeavingIsTakenInAnyVersion }
    ensures partial_replies_renew_leases { PartialRepliesRenewLeases }
    ensures the_long_session { TheLongSession }

    // Full queues, slow peers, settling.
    ensures queues_fill_by_number { QueuesFillByNumber }
    ensures queues_fill_by_weight { QueuesFillByWeight }
    ensures queues_fill_by_one_byte { QueuesFillByOneByte }
    ensures waiting_workers_need_no_queue { WaitingWorkersNeedNoQueue }
    ensures slow_peers_are_cut_off { SlowPeersAreCutOff }
    ensures bytes_on_the_way_are_counted { BytesOnTheWayAreCounted }
    ensures bytes_on_the_way_are_counted_one_by_one { BytesOnTheWayAreCountedOneByOne }
    ensures slow_workers_lose_their_request { SlowWorkersLoseTheirRequest }
    ensures every_event_settles { EveryEventSettles }
    ensures settling_comes_last { SettlingComesLast }
    ensures the_gone_are_not_settled { TheGoneAreNotSettled }

    // From bytes to bytes.
    ensures pieces_are_read { PiecesAreRead }
    ensures single_bytes_are_read { SingleBytesAreRead }
    ensures long_sizes_are_read { LongSizesAreRead }
    ensures other_mechanisms_are_refused { OtherMechanismsAreRefused }
    ensures older_versions_are_refused { OlderVersionsAreRefused }
    ensures faults_end_connections { FaultsEndConnections }
    ensures long_messages_are_refused { LongMessagesAreRefused }
    ensures requests_are_routed_as_bytes { RequestsAreRoutedAsBytes }
{}

/// And so they do over a store (ZeroMQ RFC 9): while its disk works, and where acts on it fail.
pub fn the_worked_runs_with_a_store()
    // The disk works.
    ensures tickets_are_served { TicketsAreServed }
    ensures tickets_are_kept { TicketsAreKept }
    ensures files_grow { FilesGrow }
    ensures tickets_outlive_their_clients { TicketsOutliveTheirClients }
    ensures tickets_outlive_leases { TicketsOutliveLeases }
    ensures tickets_outlive_slow_workers { TicketsOutliveSlowWorkers }
    ensures tickets_go_back_to_the_end { TicketsGoBackToTheEnd }
    ensures closed_tickets_are_dropped { ClosedTicketsAreDropped }
    ensures late_replies_are_dropped { LateRepliesAreDropped }
    ensures partial_replies_are_not_kept { PartialRepliesAreNotKept }
    ensures the_long_session_keeps { TheLongSessionKeeps }
    ensures the_sessions_commands { TheSessionsCommands }
    ensures the_next_run_goes_on { TheNextRunGoesOn }
    ensures titanics_names_are_reserved { TitanicsNamesAreReserved }
    ensures titanics_names_are_free { TitanicsNamesAreFree }
    ensures stores_fill_by_number { StoresFillByNumber }
    ensures stores_fill_by_size { StoresFillBySize }
    ensures stores_fill_by_one_byte { StoresFillByOneByte }
    ensures bad_requests_are_refused { BadRequestsAreRefused }
    ensures ids_are_whole { IdsAreWhole }

    // Acts on it fail.
    ensures lost_accepts_are_tried_again { LostAcceptsAreTriedAgain }
    ensures found_accepts_are_tickets { FoundAcceptsAreTickets }
    ensures lost_replies_are_served_again { LostRepliesAreServedAgain }
    ensures found_replies_are_shown { FoundRepliesAreShown }
    ensures lost_closes_leave_the_ticket { LostClosesLeaveTheTicket }
    ensures found_closes_close_the_ticket { FoundClosesCloseTheTicket }
    ensures appends_behind_an_opening_fail { AppendsBehindAnOpeningFail }
    ensures failed_dispatches_send_nothing { FailedDispatchesSendNothing }
    ensures dispatches_fail_again { DispatchesFailAgain }
    ensures failed_dispatches_set_no_mark { FailedDispatchesSetNoMark }
    ensures failed_dispatches_put_the_worker_last { FailedDispatchesPutTheWorkerLast }
    ensures failed_readings_are_asked_for_again { FailedReadingsAreAskedForAgain }
    ensures doubts_outlive_failed_openings { DoubtsOutliveFailedOpenings }
    ensures bad_requests_dont_open_the_store { BadRequestsDontOpenTheStore }
    ensures trade_goes_on { TradeGoesOn }
    ensures tickets_wait_for_the_store { TicketsWaitForTheStore }
    ensures held_tickets_are_not_queued_again { HeldTicketsAreNotQueuedAgain }
    ensures leaving_workers_take_tickets_along { LeavingWorkersTakeTicketsAlong }
    ensures replies_open_the_store { RepliesOpenTheStore }
    ensures replies_that_cant_be_kept_are_dropped { RepliesThatCantBeKeptAreDropped }
{}
