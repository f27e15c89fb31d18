//! Whether nobody is kept waiting before what comes from outside takes effect.
ghost use Rattle.std.specs.Prelude.{◌≡◌, List, true, None};
ghost use Rattle.std.specs.Bool.{OnTrue};
ghost use Rattle.mj_ledger.specs.Events.{Event};
ghost use Rattle.mj_ledger.specs.Standing.{Stands};
ghost use Rattle.mj_ledger.specs.TranscriptLaws.{nobody_is_kept};

use mj_ledger::Tables;

/// Whether nobody is kept waiting; where that is so the tables take note of it.
pub(crate) fn settle(tables: &mut Tables) -> bool
    ensures said { (es : List Event) → Stands tables.old es → tables.old.owner ≡ true → result ≡ nobody_is_kept es }
    ensures stands { (es : List Event) → Stands tables.old es → tables.old.owner ≡ true → Stands tables.new es }
    ensures settled { OnTrue result (tables.new.suspect ≡ None) }
    ensures peers { tables.new.peers ≡ tables.old.peers }
{
    if !tables.is_clear() {
        return false;
    }
    tables.clear();
    true
}
