//! Laws: the stop model in plain words, and the lines of an input.
ghost use Rattle.abc_outside.specs.Ranges.{WriteTears, TornIsWritten, CutShortens, ShortenedIsCut, SyncedIsExact};
ghost use Rattle.abc_outside.specs.Lines.{FirstIsFirst, OverHasNone, WithinHasNone};

/// The law that joins the two tellings of the stop model. A host may be thought of by the places
/// that may hold any byte and by the least and the greatest size since the last sync. Then the images
/// that a stop may leave after a write are exactly those from before it, torn, and after a cut exactly
/// those from before it, shortened, as the clauses of [`Host`](crate::Host) have it; after a sync there is but the
/// image as it reads.
pub fn stop_model()
    ensures write { WriteTears }
    ensures torn { TornIsWritten }
    ensures cut { CutShortens }
    ensures shortened { ShortenedIsCut }
    ensures sync { SyncedIsExact }
{}

/// The law that joins the answers of [`Lines`](crate::Lines) and the lines of an input as abc_num cuts them: the
/// line that is answered is the first of them, and the others are those of what is left; where the answer is the
/// end, or that the bytes are too few, there is none.
pub fn lines_are_in_order()
    ensures first { FirstIsFirst }
    ensures over { OverHasNone }
    ensures within { WithinHasNone }
{}
