//! Laws of messages and of the world. The functions do nothing.
ghost use Rattle.mj_copy_law.specs.CopyLaw.{CopyIsAPrefix};
ghost use Rattle.mj_copy_law.specs.Cuts.{FollowIgnoresCuts, ShipIgnoresCuts};
ghost use Rattle.mj_copy_law.specs.MessageLaws.{FrontsAreRead, ReadIsWritten, WrittenIsRead};

/// Each message that can be written is read, whatever follows; and a front of it, and of what follows, reads as this
/// message or as the start of one. What is read as a message was written as it.
pub fn messages_are_read()
    ensures written { WrittenIsRead }
    ensures fronts { FrontsAreRead }
    ensures back { ReadIsWritten }
{}

/// Whatever the links and crashes do, the copy is a prefix of the source.
pub fn the_copy_is_a_prefix()
    ensures { CopyIsAPrefix }
{}

/// However what a link gives is cut into pieces, an end does the same, and so it does at whatever comes behind.
pub fn cuts_change_nothing()
    ensures ship { ShipIgnoresCuts }
    ensures follow { FollowIgnoresCuts }
{}
