//! Worked runs, computed from the definitions. The function does nothing.
ghost use Rattle.mj_copy_law.specs.CopyRuns.{FollowsOne, FollowsOneStore, GivesUp, ShipsInPieces, ShipsOne, ShipsThree};

/// Runs of both ends, worked out by hand, and one of the world with a crash inside an append.
pub fn the_worked_copies()
    ensures ships { ShipsThree }
    ensures in_pieces { ShipsInPieces }
    ensures follows { FollowsOne }
    ensures one_store { FollowsOneStore }
    ensures gives_up { GivesUp }
    ensures world { ShipsOne }
{}
