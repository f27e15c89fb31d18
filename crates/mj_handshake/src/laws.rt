ghost use Rattle.mj_handshake.specs.Laws.{WrittenIsRead, OneList};

/// The READY that is written is read again as the same type.
pub fn written_is_read()
    ensures { WrittenIsRead }
{}

/// No bytes are a READY in two ways.
pub fn one_list()
    ensures { OneList }
{}
