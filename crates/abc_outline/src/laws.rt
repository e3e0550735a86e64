//! What the definitions of an outline mean together: what the outline goes by of a line follows from its tokens.
ghost use Rattle.std.specs.Prelude.{All, List};
ghost use Rattle.abc_num.specs.declared.lines.Line.{Line};
ghost use Rattle.abc_outline.specs.ByTokens.{IsByTokens};
ghost use Rattle.abc_outline.specs.Rows.{row_of, rows_of};

use abc_tokens::{computed_tokens, shape_by_tokens, spelled_tokens};

/// How a line begins and ends follows from its tokens, where they have no fault: whether the last is a colon, whether the first
/// is SELECT, and whether they begin with HOW TO or as the heading of a refinement.
pub fn edges_by_tokens()
    ensures row { (line : Line) → IsByTokens (row_of line) }
    ensures rows { (lines : List Line) → All IsByTokens (rows_of lines) }
{
    computed_tokens();
    shape_by_tokens();
    spelled_tokens();
}
