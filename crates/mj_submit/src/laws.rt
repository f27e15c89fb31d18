//! Worked payloads and runs, computed from the definitions. The functions do nothing.
ghost use Rattle.mj_submit.specs.WorkedNotes;
ghost use Rattle.mj_submit.specs.WorkedSubmissions;

/// The three payloads of a line, byte for byte, and which lists of them are lawful.
pub fn the_worked_notes()
    ensures payloads { WorkedNotes.ThreePayloads }
    ensures lawful { WorkedNotes.LawfulLists }
    ensures unlawful { WorkedNotes.UnlawfulLists }
    ensures sizes { WorkedNotes.FilesGrow }
{}

/// A line that is submitted, fetched and closed, a line whose reply was printed in an earlier call, and one whose reply
/// isn't there yet.
pub fn the_worked_submissions()
    ensures submitted { WorkedSubmissions.LinesAreSubmitted }
    ensures fetched { WorkedSubmissions.RepliesAreFetched }
    ensures closed { WorkedSubmissions.TicketsAreClosed }
    ensures skipped { WorkedSubmissions.ClosedLinesAreSkipped }
    ensures waits { WorkedSubmissions.PendingRepliesAreAskedForAgain }
    ensures polls { WorkedSubmissions.PollsEnd }
    ensures refused { WorkedSubmissions.OtherAnswersAreRefused }
    ensures unanswered { WorkedSubmissions.UnansweredCallsAreGivenUp }
{}
