//! What the definitions of displays and of literals mean together.
ghost use Rattle.abc_print.specs.Laws.{DisplaysReadBack, LinesSpellOne, LinesAreComputed};

use abc_tokens::{computed_tokens, one_reading};

/// Every display reads back to its value: the line of its bytes spells this value, and no line spells two. What a line
/// spells, if it spells a value, can be computed.
pub fn displays_read_back()
    ensures back { DisplaysReadBack }
    ensures only { LinesSpellOne }
    ensures computed { LinesAreComputed }
{
    one_reading();
    computed_tokens();
}
