//! Laws of texts that are put, for callers: functions without a body, whose contracts are the laws.
ghost use Rattle.outside_io.specs.Pieces.{PiecesJoin, StarvesBeforeAny};

/// Texts that are put one after another are one text that is put, also where the output stops within one of them.
#[inline]
pub fn pieces_join()
    ensures { PiecesJoin }
{}

/// Where memory was wanting before anything was put, it was wanting within any text.
#[inline]
pub fn nothing_put_is_starved()
    ensures { StarvesBeforeAny }
{}
