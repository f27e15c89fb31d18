//! What holds of the messages of clients, proved once and for all. The functions do nothing.
ghost use Rattle.mj_client_cmd.specs.Laws.{OneListOfRequest, OneRequestOfList, RequestIsRead, RequestIsWritten, OneListOfReply, OneReplyOfList, ReplyIsRead, ReplyIsWritten};

/// A request has one list of frames, and a list is at most one request; what is read is that request, and what is
/// written is that list.
pub fn requests_are_one_to_one()
    ensures list { OneListOfRequest }
    ensures request { OneRequestOfList }
    ensures read { RequestIsRead }
    ensures written { RequestIsWritten }
{}

/// A reply has one list of frames, and a list is at most one reply; what is read is that reply, and what is written
/// is that list.
pub fn replies_are_one_to_one()
    ensures list { OneListOfReply }
    ensures reply { OneReplyOfList }
    ensures read { ReplyIsRead }
    ensures written { ReplyIsWritten }
{}
