//! What holds of every turn of a submitter. The function does nothing.
ghost use Rattle.mj_submitting.specs.Lawful;

/// The notes of each turn are the next ones of a file that is as far as the submitter, and leave it as far as that.
pub fn the_notes_of_a_turn_are_lawful()
    ensures { Lawful.TurnsAreLawful }
{}
