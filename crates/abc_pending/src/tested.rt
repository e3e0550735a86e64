//! How IF and a turn of WHILE go on behind their test.
ghost use Rattle.std.specs.Prelude.{◌≡◌, ◌<◌, ◌+◌, List};
ghost use Rattle.abc_tree.specs.declared.commands.Unit.{Unit as Routine};
ghost use Rattle.abc_meaning.specs.State.{State};
ghost use Rattle.abc_meaning.specs.Here.{Scope as Names};
ghost use Rattle.abc_meaning.specs.Meaning.{meaning};
ghost use Rattle.abc_state.specs.Views.{at};
ghost use Rattle.abc_pending.specs.Leads.{resume_truth};
ghost use Rattle.abc_pending.specs.Pending.{if_test, while_test};
ghost use Rattle.abc_pending.specs.Views.{begin_of, below_next, next_weight};
ghost use Rattle.abc_pending.specs.Weights.{suite_size, test_size};

use crate::pending::{ForFlow, Job, Next, Reply, Waiting, Work};
use crate::place::Place;
use abc_state::Exit;
use abc_tree::{Suite, Test};

/// The suite of IF, where its test holds.
pub fn if_tested<'a>(place: Place, suite: &'a Suite, truth: bool) -> Next<'a>
    ensures leads { (units : List Routine) (scope : Names) (s : State) → resume_truth units (meaning units place.levels) (at scope place.line) (if_test suite.now) truth s ≡ begin_of units scope result s }
    ensures scope { (scope : Names) → below_next scope result ≡ scope }
    ensures falls { next_weight result < 2 + suite_size suite.now }
{
    if truth {
        Next::Go(Work(place, Job::PerformAll(suite, 0)))
    } else {
        Next::Give(Reply::Went(Exit::GoesOn))
    }
}

/// The suite of WHILE, where its test holds, with the turns behind it.
pub fn while_tested<'a>(
    place: Place,
    turns: u64,
    test: &'a Test,
    suite: &'a Suite,
    truth: bool,
) -> Next<'a>
    ensures leads { (units : List Routine) (scope : Names) (s : State) → resume_truth units (meaning units place.levels) (at scope place.line) (while_test turns test.now suite.now) truth s ≡ begin_of units scope result s }
    ensures scope { (scope : Names) → below_next scope result ≡ scope }
    ensures falls { next_weight result < 5 + test_size test.now + suite_size suite.now + suite_size suite.now }
{
    if truth {
        Next::Wait(
            Waiting::Flow(place, ForFlow::WhileBody(turns, test, suite)),
            Work(place, Job::PerformAll(suite, 0)),
        )
    } else {
        Next::Give(Reply::Went(Exit::GoesOn))
    }
}
