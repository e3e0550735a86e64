//! The line up to which the nodes of a command stand.
ghost use Rattle.std.specs.Prelude.{◌≡◌, ◌≤◌, max, map};
ghost use Rattle.abc_tree.specs.Height.{highest};
ghost use Rattle.abc_tree.specs.Lists.{flat};
ghost use Rattle.abc_ground.specs.Seen.{seen_command};
ghost use Rattle.abc_groups.specs.Program.{LAST_LINE};
ghost use Rattle.abc_check.specs.inner.Ends.{EndBy, of_action, of_alternative, of_inner, last_of_action, last_of_alternative, last_of_inner};

use abc_tree::{Action, ActionNode, Alternative, Command};

/// The last line of a command and of the commands and alternatives in it, or 1, if that is greater.
pub(crate) fn last_line(command: &Command) -> u32
    ensures from { 1 ≤ result }
    ensures within { result ≤ LAST_LINE }
    ensures ends { EndBy result (seen_command command.now) }
    ensures greatest { result ≡ max 1 (last_of_action command.now.action) }
{
    action_end(&command.action, 1)
}

/// The last line of a command and of those in it, or `before`, if that is greater.
#[cycle(ends)]
fn action_end(action: &Action, before: u32) -> u32
    ensures ends { EndBy result (of_action action.now) }
    ensures greatest { result ≡ max before (last_of_action action.now) }
{
    inner_end(&action.node, before.max(action.line))
}

/// The same of the commands in a command alone.
#[cycle(ends)]
fn inner_end(node: &ActionNode, before: u32) -> u32
    ensures ends { EndBy result (of_inner node.now) }
    ensures greatest { result ≡ max before (last_of_inner node.now) }
{
    match node {
        ActionNode::If(_, suite) => suite_end(suite.as_slice(), before),
        ActionNode::While(_, suite) => suite_end(suite.as_slice(), before),
        ActionNode::For { suite, .. } => suite_end(suite.as_slice(), before),
        ActionNode::Select(alternatives) => alternatives_end(alternatives.as_slice(), before),
        _ => before,
    }
}

#[cycle(ends)]
fn suite_end(suite: &[Action], before: u32) -> u32
    ensures ends { EndBy result (flat (map of_action suite.now)) }
    ensures greatest { result ≡ max before (highest (map last_of_action suite.now)) }
{
    let mut last = before;
    for action in suite {
        last = action_end(action, last);
    }
    last
}

#[cycle(ends)]
fn alternatives_end(alternatives: &[Alternative], before: u32) -> u32
    ensures ends { EndBy result (flat (map of_alternative alternatives.now)) }
    ensures greatest { result ≡ max before (highest (map last_of_alternative alternatives.now)) }
{
    let mut last = before;
    for alternative in alternatives {
        last = alternative_end(alternative, last);
    }
    last
}

#[cycle(ends)]
fn alternative_end(alternative: &Alternative, before: u32) -> u32
    ensures ends { EndBy result (of_alternative alternative.now) }
    ensures greatest { result ≡ max before (last_of_alternative alternative.now) }
{
    suite_end(alternative.suite.as_slice(), before.max(alternative.line))
}
