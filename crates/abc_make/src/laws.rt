//! The law of the line that ends a reply.
ghost use Rattle.abc_make.specs.LastLine.{LastLineIsFound};

/// The line by which a reply is counted is the last one of the reply, and no other is.
pub fn last_line_is_found()
    ensures { LastLineIsFound }
{}
