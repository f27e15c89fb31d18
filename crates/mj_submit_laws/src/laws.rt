ghost use Rattle.mj_submit_laws.specs.SubmitSights;

/// A ticket is asked for where the line has none, fetched where it has one, and closed only where its reply was printed
/// in this run or the file had it as given. What is written is how a link begins, and the message of what is asked; a
/// record says what was answered; a reply is printed once, before its record, and is what the broker answered. At the end
/// of the input all its lines are closed.
pub fn a_ticket_is_closed_only_behind_its_printed_reply()
    ensures { SubmitSights.RunsAreRight }
{}

/// Wherever a run breaks off, what was done is right, the records so far are lawful behind those of before, and the
/// replies printed so far are those of the lines from the first one on that wasn't given, each once and in order.
pub fn a_submission_may_break_off_at_any_moment()
    ensures { SubmitSights.BreaksAreRight }
{}

/// A message that closes a ticket, by its bytes, is written only behind a moment at which its closing was asked for; the
/// file had the ticket's reply as given then, and it was printed in this run or the file had it as given at the start.
pub fn a_closing_message_follows_the_printed_reply()
    ensures { SubmitSights.ClosingsFollowReplies }
{}
