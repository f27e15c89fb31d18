ghost use Rattle.mj_opening.specs.Opening.{OpeningsStand, OpeningsAreRead};

/// What is read of a message's front stands there, and what is written in front of a message is read again, whatever
/// follows. In 0.1 the lead is there.
pub fn openings_are_read()
    ensures stands { OpeningsStand }
    ensures read { OpeningsAreRead }
{}
