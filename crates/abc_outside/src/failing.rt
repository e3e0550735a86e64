//! The calls of the host in memory that are to fail.
ghost use Rattle.std.specs.Prelude.{◌≡◌, map};
ghost use Rattle.abc_outside.specs.Failing.{is_due, one_nearer};

/// The kinds of calls of a [`Host`](crate::Host).
#[derive(Clone, Copy, Debug, PartialEq, Eq)]
pub enum CallKind {
    Choose,
    Read,
    Size,
    ReadAt,
    WriteAt,
    Cut,
    Sync,
    Say,
}

/// A call that is to fail: the `wait`-th of its kind from now on, counted from 1. At 0 it has come
/// already.
#[derive(Clone, Copy, Debug, PartialEq, Eq)]
pub struct Listed {
    pub kind: CallKind,
    pub wait: u64,
}

/// Whether the next call of this kind is to fail.
fn is_listed(listed: &[Listed], kind: CallKind) -> bool
    ensures { result ≡ is_due kind listed.now }
{
    listed
        .iter()
        .any(|call| call.kind == kind && call.wait == 1)
}

/// The entry after a call of this kind.
fn nearer(call: Listed, kind: CallKind) -> Listed
    ensures { result ≡ one_nearer kind call }
{
    if call.kind == kind {
        return Listed {
            kind: call.kind,
            wait: call.wait.saturating_sub(1),
        };
    }
    call
}

/// Counts a call of this kind.
fn count_call(listed: &mut [Listed], kind: CallKind)
    ensures { listed.new ≡ map (one_nearer kind) listed.old }
{
    for call in listed.iter_mut() {
        *call = nearer(*call, kind);
    }
}

/// Counts a call of this kind, and tells whether it is to fail.
pub(crate) fn next_fails(listed: &mut [Listed], kind: CallKind) -> bool
    ensures fails { result ≡ is_due kind listed.old }
    ensures counted { listed.new ≡ map (one_nearer kind) listed.old }
{
    let fails = is_listed(listed, kind);
    count_call(listed, kind);
    fails
}
