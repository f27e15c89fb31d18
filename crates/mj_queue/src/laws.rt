ghost use Rattle.mj_queue.specs.PairLaw.{PairIsFirst};

/// A law on the definition of a pair: its request is the first whose service has a waiting worker, and its
/// worker the first that waits for that service; there is none exactly where no request has a waiting worker.
pub fn a_pair_is_the_first_on_both_sides()
    ensures { PairIsFirst }
{}
