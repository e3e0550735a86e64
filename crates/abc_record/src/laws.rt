//! Laws of spellings, for the crates above.
ghost use Rattle.abc_record.specs.Laws.{ChangesAreToldApart, OneListIsSpelled, OnePlaceIsWrong, WeightIsLength};

/// A change has one spelling, which tells by itself where it ends; so bytes are the spelling of one list of changes. Bytes
/// that spell none go wrong at one place.
pub fn spellings_are_told_apart()
    ensures changes { ChangesAreToldApart }
    ensures lists { OneListIsSpelled }
    ensures place { OnePlaceIsWrong }
{}

/// A value weighs as many bytes as its spelling has.
pub fn weights_are_lengths()
    ensures { WeightIsLength }
{}
