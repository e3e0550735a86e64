//! Laws of sessions: over any items, and under any stop.
ghost use Rattle.std.specs.Prelude.{Bool, List, ℕ};
ghost use Rattle.abc_turns.specs.Session.{Next, Came};
ghost use Rattle.abc_turns.specs.Steady.{IsSteady, Fronts, Unfolds, Waits, UsesThen, UsedAreServed};
ghost use Rattle.abc_turns.specs.Stops.{StopsArePoints, ItemsArePoints, LaterPointsArePoints, LaterIsBetween, LaterIsBroken, LaterIsCutShort, HeardPast, WholePast};

use abc_outside::Host;

/// The laws of a session over any lines `L`, items `I` and works `W`, whatever the next item of some lines
/// is and whatever comes of an item, where these are steady: what is so of some lines stays so whatever
/// lines follow. Then what some lines settle is a front of every longer session, and a session that quits
/// in them is the longer one (`fronts`); the session is its first item and the session over the lines that
/// are left (`unfolds`); without lines it waits (`waits`). Lines that were used stay so behind further
/// ones (`uses`), and their turns are those that the whole session has served (`serves`).
pub fn sessions<W, I, L>()
    ensures fronts { (next : Bool → List L → Next I L) (outcome : Bool → ℕ → W → I → List L → Came W L) → IsSteady next outcome → Fronts next outcome }
    ensures unfolds { (next : Bool → List L → Next I L) (outcome : Bool → ℕ → W → I → List L → Came W L) → IsSteady next outcome → Unfolds next outcome }
    ensures waits { (next : Bool → List L → Next I L) (outcome : Bool → ℕ → W → I → List L → Came W L) → IsSteady next outcome → Waits next outcome }
    ensures uses { (next : Bool → List L → Next I L) (outcome : Bool → ℕ → W → I → List L → Came W L) → UsesThen next outcome }
    ensures serves { (next : Bool → List L → Next I L) (outcome : Bool → ℕ → W → I → List L → Came W L) → UsedAreServed next outcome }
{}

/// What an image of a store stands for.
pub trait Opens {
    /// The image opens to this workspace.
    ghost opens: { List ℕ → Self → Type 0 };
}

/// The law of sessions over stops, for every host, every kind of workspace, every list of replies and
/// every list of workspaces. If each item keeps to what it may leave (in its commit the workspace
/// before or after it, while its reply is said the one after it), and what is done before, between and
/// behind the items leaves it as it is, then a stop at any moment has said a front of the replies and
/// leaves an image that opens to the workspace after some of the items: all of whose reply a byte was
/// said, and at most one more than were said wholly. So does a session without items. What ends the
/// session behind some of its items ends the whole session so.
pub fn session_of_stops<H: Host, W: Opens>()
    ensures points { StopsArePoints H.clock H.stopped (λ host. (H.now host).said) W.opens }
    ensures item { ItemsArePoints W.opens }
    ensures later { LaterPointsArePoints W.opens }
    ensures between { LaterIsBetween H.clock H.stopped W.opens }
    ensures broken { LaterIsBroken H.clock H.stopped W.opens }
    ensures cut_short { LaterIsCutShort H.clock H.stopped W.opens }
    ensures heard { HeardPast }
    ensures whole { WholePast }
{}
