//! What the generated load is, worked by hand. The function does nothing.
ghost use Rattle.mj_gen.specs.LoadRows.{LoadOfEight, LoadOfOne, LoadOfOneStored};

/// The events of a load of one request, without a ticket and with one, and how many a load of eight has.
pub fn the_generated_load()
    ensures one { LoadOfOne }
    ensures stored { LoadOfOneStored }
    ensures eight { LoadOfEight }
{}
