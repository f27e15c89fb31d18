ghost use Rattle.mj_peer_laws.specs.ClientSights;
ghost use Rattle.mj_peer_laws.specs.ClientTries;
ghost use Rattle.mj_peer_laws.specs.WorkerSights;
ghost use Rattle.mj_peer_laws.specs.WorkerTries;

/// A request is written only on a link whose stream has the broker's READY, and beside it only how a link begins. What
/// a client hands out came with a message of the link that was read last: a reply for its service in its version, while
/// a request was open. A request gets one final reply at most.
pub fn a_client_asks_on_ready_links_and_hands_out_its_replies()
    ensures { ClientSights.RunsAreRight }
{}

/// A client gives a request up exactly at the last quiet event of its last try, counted since it was asked: where nothing
/// came for 100 ms, the link ended, or its stream broke the rules. From then on it does nothing.
pub fn a_client_gives_up_at_the_last_quiet_event()
    ensures { ClientTries.RunsAreRight }
{}

/// A worker answers each REQUEST that it was given with that REQUEST's address and body, on the REQUEST's link, in
/// order and once: its replies, and behind them the mark that it was served. Before anything else comes all were
/// answered, unless the worker has left or given up. Beside replies it writes its own words alone: how a link begins,
/// READY, HEARTBEAT and DISCONNECT.
pub fn a_worker_answers_each_request_once()
    ensures { WorkerSights.RunsAreRight }
{}

/// A worker gives up exactly at the last quiet event of its last try, counted since it heard of the broker: where nothing
/// came for 100 ms, the link ended, its stream broke the rules, or the broker sent it away. From then on it does nothing.
pub fn a_worker_gives_up_at_the_last_quiet_event()
    ensures { WorkerTries.RunsAreRight }
{}
