//! What holds of the texts of files, and of openings, proved once and for all. The functions do nothing.
ghost use Rattle.mj_journal.specs.Laws.{HeadersAreSixteen, HeadersHaveOneBase, ShortOnesAreLittle, ShortOnesHaveNone, EndsAddUp, EndsAreInside, PayloadsAreInPlace, ReadInFront, WholeIsUndamaged, WholeIsBegun, StandsOnce, OpensOnce, TextStands, NoStoreInTheMaking};
ghost use Rattle.mj_journal.specs.HandedOut.{HandsOutItsList, HandsOutEither, ImagesHandOutEither, BegunHandsOutEither, AppendedHandsOutEither};

use mj_disk::Disk;

/// A header has 16 bytes, and one base.
pub fn headers_say_their_base()
    ensures size { HeadersAreSixteen }
    ensures base { HeadersHaveOneBase }
{}

/// Of at most 17 bytes an opening makes no payloads, and nothing else can be made of them.
pub fn short_files_have_no_payloads()
    ensures opens { ShortOnesAreLittle }
    ensures only { ShortOnesHaveNone }
{}

/// A record with its gate takes five bytes more than its payload, which stands five bytes on from the gate; and the closed
/// gate is inside the file.
pub fn payloads_stand_at_their_places()
    ensures end { EndsAddUp }
    ensures inside { EndsAreInside }
    ensures place { PayloadsAreInPlace }
{}

/// A file that stands for a list isn't refused, neither at its beginning nor at any of its gates, and what was read of it
/// up to a gate is a front of the list, with the file's base.
pub fn whole_files_are_read()
    ensures begun { WholeIsBegun }
    ensures undamaged { WholeIsUndamaged }
    ensures front { ReadInFront }
{}

/// Bytes stand for at most one list of payloads, and open as at most one, with one base.
pub fn files_stand_once()
    ensures stands { StandsOnce }
    ensures opens { OpensOnce }
{}

/// The text of payloads stands for them.
pub fn texts_stand()
    ensures { TextStands }
{}

/// A file in the making has no header.
pub fn no_store_in_the_making()
    ensures { NoStoreInTheMaking }
{}

/// An opening of a disk hands out, from its beginning to the closed gate, the list as which the bytes open. Where
/// each image that a crash now may leave opens as one of two lists, it hands out one of these two, and so does one
/// after a crash, also one inside an opening. After an append, whole, failed or cut off, the two are the old list and
/// the one with the payload.
pub fn an_opening_gives_the_list<D: Disk>()
    ensures list { (disk : D) → HandsOutItsList (D.told disk) }
    ensures either { (disk : D) → HandsOutEither (D.told disk) }
    ensures image { (disk : D) → ImagesHandOutEither (D.told disk) }
    ensures begin { (before after : D) → BegunHandsOutEither (D.told before) (D.told after) }
    ensures append { (before after : D) → AppendedHandsOutEither (D.told before) (D.told after) }
{}
