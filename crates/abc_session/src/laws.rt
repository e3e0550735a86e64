//! Laws of the items of a session.
ghost use Rattle.abc_session.specs.Session.{ItemsAreSteady, NoReplyIsEmpty};
ghost use Rattle.abc_session.specs.Exact.{ExactChecksTell};

use abc_outcome::no_reply_is_empty;

/// The items of a session are steady: what is so of some lines stays so whatever lines follow, and none is waited
/// for at the end of the input. So all laws of [`abc_turns::sessions`] hold of them: what the bytes taken settle
/// is a front of the session's output. No reply is empty.
pub fn items_are_steady()
    ensures steady { ItemsAreSteady }
    ensures replies { NoReplyIsEmpty }
{
    no_reply_is_empty();
}

/// A check that tells exactly the type lines tells those of the first items of a session, as many as one likes: by what it tells
/// of them the session is that of the check.
pub fn exact_checks_tell()
    ensures { ExactChecksTell }
{}
