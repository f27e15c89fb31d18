//! What a stream's items are, in words of the whole stream, proved once and for all. The functions do nothing.
ghost use Rattle.mj_wire.specs.Laws.{LongestCutIsRead, LongestCutExists, LongestCutIsOne, NoCutExactly, NoCutIsRead, PiecesAdd, FaultIsLast};

/// The items of a stream are those of its longest cut: an accepted greeting and whole frames behind it, within
/// the limits (ZeroMQ RFC 23). The fault, if there is one, is that of the rest.
pub fn longest_cut_is_read()
    ensures read { LongestCutIsRead }
    ensures exists { LongestCutExists }
    ensures one { LongestCutIsOne }
{}

/// A stream without an accepted greeting has no item but the greeting's fault.
pub fn no_cut_is_read()
    ensures exactly { NoCutExactly }
    ensures read { NoCutIsRead }
{}

/// What was read of a stream stays, and a fault is the last item, whatever comes.
pub fn items_stay()
    ensures add { PiecesAdd }
    ensures last { FaultIsLast }
{}
