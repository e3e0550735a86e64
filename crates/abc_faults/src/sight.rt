//! What the lines above decide of a line.
use abc_outline::Place;

/// What the lines above decide of a line.
#[derive(Clone, Copy)]
pub struct Sight {
    pub place: Place,
    /// All lines between the first and this share names.
    pub shares: bool,
    /// A name gets a second role here.
    pub twice: bool,
    /// How many names were used up to here.
    pub names: usize,
}
