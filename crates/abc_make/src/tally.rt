//! What is counted of the replies of a run.
ghost use Rattle.std.specs.Prelude.{◌≡◌, ◌<◌, ◌^◌, ◌-◌};
ghost use Rattle.abc_make.specs.Summary.{begins, ends_in_ok, more_where, nothing_counted, with_reply};

use crate::lines::{answer_in, last_line};
use std::marker::Model;

/// How many replies there were and of which kinds, and how many bytes they have in all.
#[derive(Clone, Copy, Debug, PartialEq, Eq)]
pub struct Tally {
    items: u64,
    oks: u64,
    units: u64,
    faults: u64,
    said: u128,
}

impl Model for Tally {
    ghost use Rattle.std.specs.Prelude.{◌≤◌, ◌*◌, ◌^◌};
    ghost use Rattle.abc_make.specs.Summary.{Count};

    ghost Value = { Count };

    ghost view = { λ t. record { items = t.items; oks = t.oks; units = t.units; faults = t.faults; said = t.said } };

    ghost inverse = { λ c. record { items = c.items; oks = c.oks; units = c.units; faults = c.faults; said = c.said } };

    ghost invariant = { λ t. (t.oks ≤ t.items) × (t.units ≤ t.items) × (t.faults ≤ t.items) × (t.said ≤ t.items * 2 ^ 63) };
}

/// One more where it holds.
fn more(count: u64, holds: bool) -> u64
    requires { count < 2 ^ 64 - 1 }
    ensures { result ≡ more_where holds count }
{
    if holds { count + 1 } else { count }
}

/// Whether the last line of a reply goes on with this word behind its number.
fn begins_with(reply: &[u8], word: &[u8]) -> bool
    ensures { result ≡ begins word.now reply.now }
{
    answer_in(last_line(reply)).starts_with(word)
}

/// Whether a reply ends in `ok`: that of a command that ran does, and any whose template at its end does.
fn is_ok(reply: &[u8]) -> bool
    ensures { result ≡ ends_in_ok reply.now }
{
    reply.ends_with(b"ok\n")
}

impl Tally {
    /// Nothing was counted yet.
    pub fn new() -> Tally
        ensures { result ≡ nothing_counted }
    {
        Tally {
            items: 0,
            oks: 0,
            units: 0,
            faults: 0,
            said: 0,
        }
    }

    /// Counts one more reply.
    pub fn add(&mut self, reply: &[u8])
        requires { self.old.items < 2 ^ 64 - 1 }
        ensures { self.new ≡ with_reply self.old reply.now }
    {
        *self = Tally {
            items: self.items + 1,
            oks: more(self.oks, is_ok(reply)),
            units: more(self.units, begins_with(reply, b"unit")),
            faults: more(self.faults, begins_with(reply, b"fault")),
            said: self.said + reply.len() as u128,
        };
    }

    /// How many replies there were.
    pub(crate) fn items(&self) -> u64
        ensures { result ≡ self.now.items }
    {
        self.items
    }

    /// How many of them end in `ok`.
    pub(crate) fn oks(&self) -> u64
        ensures { result ≡ self.now.oks }
    {
        self.oks
    }

    /// How many of them tell of a unit.
    pub(crate) fn units(&self) -> u64
        ensures { result ≡ self.now.units }
    {
        self.units
    }

    /// How many of them tell of a fault.
    pub(crate) fn faults(&self) -> u64
        ensures { result ≡ self.now.faults }
    {
        self.faults
    }

    /// How many bytes they have in all.
    pub(crate) fn said(&self) -> u128
        ensures { result ≡ self.now.said }
    {
        self.said
    }
}
