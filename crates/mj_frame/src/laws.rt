//! What holds of the spelling of frames, proved once and for all. The functions do nothing.
ghost use Rattle.mj_frame.specs.Laws.{EveryHeadIsRead, NoFrameStartsAnother, OneReading, WrittenIsSpelled, WrittenMessageIsSpelled, OneMessage};

/// Every head is read as it is spelled, whatever follows (ZeroMQ RFC 23, framing).
pub fn every_head_is_read()
    ensures { EveryHeadIsRead }
{}

/// A frame ends at one place only, and bytes stand for at most one list of frames.
pub fn frames_end_once()
    ensures frame { NoFrameStartsAnother }
    ensures list { OneReading }
{}

/// What is written is read again: a frame, and a message's frames.
pub fn written_is_read()
    ensures frame { WrittenIsSpelled }
    ensures message { WrittenMessageIsSpelled }
    ensures once { OneMessage }
{}
