//! What holds of ids, proved once and for all. The functions do nothing.
ghost use Rattle.mj_ids.specs.Laws.{TellsApart, SpellsOne, FirstId, SecondId};

/// Tickets with different numbers have different ids, and a text is one id at most.
pub fn ids_of_tickets_are_told_apart()
    ensures numbers { TellsApart }
    ensures texts { SpellsOne }
{}

/// The ids of the tickets 1 and 2 under a seed of zeros, computed from the definition.
pub fn the_worked_ids()
    ensures first { FirstId }
    ensures second { SecondId }
{}
