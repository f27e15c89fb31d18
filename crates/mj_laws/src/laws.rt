ghost use Rattle.mj_base.specs.declared.limits.Limits.{Limits as AnyLimits};
ghost use Rattle.mj_laws.specs.Cuts.{CutsChangeNothing};
ghost use Rattle.mj_laws.specs.Kept.{CommandsGrow, IsOpenable, ListsAreLawful, StoresGoOn};
ghost use Rattle.mj_laws.specs.NobodyWaits.{EventsSettle, MessagesSettle, NobodyWaits};
ghost use Rattle.mj_laws.specs.Notes.{NotesAreTold, NotesComeWithAFailure};
ghost use Rattle.mj_laws.specs.Replies.{OneReplyOfBytes, RepliesAreOwned, RepliesAreOwnedWithout};
ghost use Rattle.mj_laws.specs.Requests.{LeasesEndInTime, OneRequestAtATime, RequestsArePaired};
ghost use Rattle.mj_laws.specs.Soundness.{IsBegun, StaysSound};
ghost use Rattle.mj_laws.specs.Storeless.{NothingIsKept};
ghost use Rattle.mj_laws.specs.Tickets.{NoTicketWaits, TicketsAreConserved, TicketsWaitForTheStore};
ghost use Rattle.mj_machine.specs.EventStep.{Noted};
ghost use Rattle.mj_machine.specs.MachineState.{Machine, start_with};
ghost use Rattle.mj_machine.specs.StoreState.{Store, opened_store};
ghost use Rattle.mj_tickets.specs.declared.command.TicketCmd.{TicketCmd as AnyCmd};
ghost use Rattle.std.specs.Prelude.{List, ℕ};

/// A piece that can be read as a reply is put in a step that is a reply of a worker, in its version, which held a
/// request of the client on the piece's lane for the service that it serves; and it is that reply in the request's
/// service and version. Or it answers the client's own request, in that step, for a name that the broker answers
/// itself (ZeroMQ RFC 8; with a store RFC 9), and is the answer; one of Titanic's says what is true of the store behind
/// that step, and without a store there is none of these. Bytes can be read as one reply alone, so its service and
/// version are the request's.
pub fn replies_reach_their_asker()
    ensures owned { (limits : AnyLimits) (store : Store) (events : List Noted) → RepliesAreOwned limits (start_with limits store) events }
    ensures without { (limits : AnyLimits) (events : List Noted) → RepliesAreOwnedWithout limits events }
    ensures read { OneReplyOfBytes }
{}

/// Behind each event, and behind each message in it, no queued request's service has a waiting worker. Without a
/// store no act of a run but a pair's own begins while one has.
pub fn nobody_waits_for_a_queued_service()
    ensures events { EventsSettle }
    ensures messages { MessagesSettle }
    ensures without { (limits : AnyLimits) (events : List Noted) → NobodyWaits limits events }
{}

/// Between two REQUESTs to one connection stands its final reply to the request that the first of the two handed
/// over, its lease's end, or its leaving. Only handing over a queued request puts what can be read as a REQUEST, with
/// that request's body or its ticket's, and a lease ends only once it has passed.
pub fn one_request_at_a_time()
    ensures between { (limits : AnyLimits) (store : Store) (events : List Noted) → OneRequestAtATime limits (start_with limits store) events }
    ensures paired { (limits : AnyLimits) (store : Store) (events : List Noted) → RequestsArePaired limits (start_with limits store) events }
    ensures leases { (limits : AnyLimits) (store : Store) (events : List Noted) → LeasesEndInTime limits (start_with limits store) events }
{}

/// Before and after each step of a run: each worker waits once or holds one request, for its own service, and
/// nobody else does; whoever has a request in the queue is there and is a client, or it is a ticket and there is a
/// store; no two connections share a number or a lane, and each number is below the next one; what is on its way to
/// each peer is within the limits.
pub fn numbers_and_lanes()
    ensures { (limits : AnyLimits) (store : Store) (events : List Noted) → IsBegun store → StaysSound limits (start_with limits store) events }
{}

/// However what comes on a lane is cut into pieces that follow each other: without a store the same is done to all
/// lanes, in the same order, and all that comes behind them finds the same state.
pub fn cuts_change_nothing()
    ensures { (limits : AnyLimits) → CutsChangeNothing limits }
{}

/// Without a store no ticket is ever queued or held, no act on a disk is made, and no note is given.
pub fn nothing_is_kept_without_a_store()
    ensures { (limits : AnyLimits) (events : List Noted) → NothingIsKept limits events }
{}

/// Over a lawful file: before and after each step of a run, while the store is open each pending ticket stands exactly
/// once in the queue and with the workers together, and no other is queued; while it is shut none is queued, and each
/// is held once at most.
pub fn tickets_are_conserved()
    ensures { (limits : AnyLimits) (seed : List ℕ) (base : ℕ) (commands : List AnyCmd) (events : List Noted) → IsOpenable limits base commands → TicketsAreConserved limits (start_with limits (opened_store seed base commands)) events }
{}

/// Over any file, and from any machine on: while the store is shut only clients' requests are queued.
pub fn tickets_wait_for_the_store()
    ensures { (limits : AnyLimits) (m : Machine) (events : List Noted) → NoTicketWaits m.store m.state → TicketsWaitForTheStore limits m events }
{}

/// The commands that a store keeps are only added to: over each step of a run, and over the whole.
pub fn commands_grow()
    ensures { (limits : AnyLimits) (m : Machine) (events : List Noted) → CommandsGrow limits m events }
{}

/// Each store around an event's steps, and the one behind it, has the base and seed of the one before and its commands
/// in front.
pub fn stores_go_on()
    ensures { (limits : AnyLimits) (m : Machine) (e : Noted) → StoresGoOn limits m e }
{}

/// Over a lawful file each list of commands that a crash during a run may leave is lawful: those that are kept around
/// each step, and these with the one in doubt.
pub fn lists_are_lawful()
    ensures { (limits : AnyLimits) (seed : List ℕ) (base : ℕ) (commands : List AnyCmd) (events : List Noted) → IsOpenable limits base commands → ListsAreLawful limits seed base commands events }
{}

/// The notes of an event are those that its acts on the disk gave, one at most for each, in turn; of its acts exactly
/// those failed of which its notes say so, and a command in doubt was found only where they say so.
pub fn notes_are_told()
    ensures { (limits : AnyLimits) (m : Machine) (e : Noted) → NotesAreTold limits m e }
{}

/// Over a store that is open, or without one: a run in which no act on the disk has failed gives no note, and its store is
/// open at the end.
pub fn notes_come_with_a_failure()
    ensures { (limits : AnyLimits) (m : Machine) (events : List Noted) → NotesComeWithAFailure limits m events }
{}
