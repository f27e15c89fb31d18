//! What holds of the messages of workers, proved once and for all. The functions do nothing.
ghost use Rattle.mj_worker_cmd.specs.Laws.{OneListOfCommand, OneCommandOfList, CommandIsRead, CommandIsWritten, OneListOfOrder, OneOrderOfList, OrderIsRead, OrderIsWritten};

/// A worker's command has one list of frames, and a list is at most one worker's command; what is read is that
/// command, and what is written is that list.
pub fn worker_commands_are_one_to_one()
    ensures list { OneListOfCommand }
    ensures command { OneCommandOfList }
    ensures read { CommandIsRead }
    ensures written { CommandIsWritten }
{}

/// A broker's command to a worker has one list of frames, and a list is at most one of them; what is read is that
/// command, and what is written is that list.
pub fn orders_are_one_to_one()
    ensures list { OneListOfOrder }
    ensures order { OneOrderOfList }
    ensures read { OrderIsRead }
    ensures written { OrderIsWritten }
{}
