//! What holds of images that crashes left, proved once and for all. The function does nothing.
ghost use Rattle.mj_store.specs.Laws.{ImagesOpenAgain, OneOpensAgain};

use mj_disk::Disk;

/// An image that opens as a lawful list, as each does that a crash in a call of a store may leave, gives that list where it
/// is taken as a fresh disk and opened: memory and disk then stand for it, and a crash inside the opening leaves nothing
/// else. Without commands its base may be another.
pub fn images_open_again<D: Disk>()
    ensures image { ImagesOpenAgain D.Disk }
    ensures among { OneOpensAgain D.Disk }
{}
