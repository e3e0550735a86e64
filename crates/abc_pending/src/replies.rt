//! What a reply holds, if it is of the kind that is waited for.
ghost use Rattle.std.specs.Prelude.{◌≡◌, IfNone, IfSome, option_map};
ghost use Rattle.abc_state.specs.Views.{actual_of, address_of, flow_of};
ghost use Rattle.abc_pending.specs.Pending.{actual, address, flow, truth, val};
ghost use Rattle.abc_pending.specs.Steps.{IsNoActual, IsNoAddress, IsNoFlow, IsNoTruth, IsNoValue};
ghost use Rattle.abc_pending.specs.Views.{reply_of};

use crate::pending::Reply;
use abc_state::{Actual, Exit, Spot};
use abc_value::Value;

/// The value that a reply is, if it is one.
pub fn value_in(reply: Reply) -> Option<Value>
    ensures some { IfSome result (λ v. reply_of reply ≡ val v) }
    ensures none { IfNone result (IsNoValue (reply_of reply)) }
{
    match reply {
        Reply::Val(value) => Some(value),
        Reply::Truth(_) => None,
        Reply::Went(_exit) => None,
        Reply::Actual(_actual) => None,
        Reply::Spot(_spot) => None,
    }
}

/// The truth value that a reply is, if it is one.
pub fn truth_in(reply: Reply) -> Option<bool>
    ensures some { IfSome result (λ b. reply_of reply ≡ truth b) }
    ensures none { IfNone result (IsNoTruth (reply_of reply)) }
{
    match reply {
        Reply::Val(_value) => None,
        Reply::Truth(truth) => Some(truth),
        Reply::Went(_exit) => None,
        Reply::Actual(_actual) => None,
        Reply::Spot(_spot) => None,
    }
}

/// The way out of a suite that a reply is, if it is one.
pub fn exit_in(reply: Reply) -> Option<Exit>
    ensures some { IfSome result (λ exit. reply_of reply ≡ flow (flow_of exit)) }
    ensures none { IfNone result (IsNoFlow (reply_of reply)) }
{
    match reply {
        Reply::Val(_value) => None,
        Reply::Truth(_) => None,
        Reply::Went(exit) => Some(exit),
        Reply::Actual(_actual) => None,
        Reply::Spot(_spot) => None,
    }
}

/// The actual that a reply is, if it is one.
pub fn actual_in(reply: Reply) -> Option<Actual>
    ensures some { IfSome result (λ a. reply_of reply ≡ actual (actual_of a)) }
    ensures none { IfNone result (IsNoActual (reply_of reply)) }
{
    match reply {
        Reply::Val(_value) => None,
        Reply::Truth(_) => None,
        Reply::Went(_exit) => None,
        Reply::Actual(actual) => Some(actual.into_inner()),
        Reply::Spot(_spot) => None,
    }
}

/// The address, if there is one, that a reply tells, if it tells one.
pub fn spot_in(reply: Reply) -> Option<Option<Spot>>
    ensures some { IfSome result (λ a. reply_of reply ≡ address (option_map address_of a)) }
    ensures none { IfNone result (IsNoAddress (reply_of reply)) }
{
    match reply {
        Reply::Val(_value) => None,
        Reply::Truth(_) => None,
        Reply::Went(_exit) => None,
        Reply::Actual(_actual) => None,
        Reply::Spot(spot) => Some(spot),
    }
}
