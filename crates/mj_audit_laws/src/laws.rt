//! Laws of verdicts, proved once and for all. The functions do nothing.
ghost use Rattle.mj_audit_laws.specs.AnswerLaw.{HeldAnswersAreGiven};
ghost use Rattle.mj_audit_laws.specs.HeldLaw.{HeldIsKept};

/// A transcript that is held to its end has lawful lines only, and keeps each of the four laws as a whole.
pub fn held_is_kept()
    ensures { HeldIsKept }
{}

/// In a transcript that is held to its end each reply to a client, but for those in the names that a broker answers itself, is
/// one that a worker of its service gave before, to this client, while it held a request with this client's address.
pub fn held_answers_are_given()
    ensures { HeldAnswersAreGiven }
{}
