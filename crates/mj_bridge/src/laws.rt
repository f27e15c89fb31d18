ghost use Rattle.mj_bridge.specs.BridgeRows;
ghost use Rattle.mj_bridge.specs.BridgeSights;

/// Two runs, act by act: a REQUEST that is answered, and one whose near link is gone when its answer comes.
pub fn worked_runs()
    ensures answered { BridgeRows.AnsweredRun }
    ensures too_late { BridgeRows.LateRun }
{}

/// A REQUEST is asked far while its near link is the present one and no other is open. The answer that the far end gives
/// while it is open is written near, on the REQUEST's link, with its address, in the order of reading and once; it is
/// written at once, unless that link is gone, and then never. Beside that a bridge writes near a worker's own words alone.
pub fn a_bridge_answers_each_request_on_its_link()
    ensures { BridgeSights.RunsAreRight }
{}

/// Where no REQUEST is open the far side has no request open, so that it may be asked.
pub fn a_bridge_asks_far_where_nothing_is_open()
    ensures { BridgeSights.FarSideIsFree }
{}
