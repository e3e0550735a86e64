//! Replies.
ghost use Rattle.std.specs.Prelude.{◌≡◌, ℕ, List, None, Some, IfOk};
ghost use Rattle.abc_outcome.specs.Reply.{ended, fault_line, is_unended, missing_line, ok_line, said, unit_line};
ghost use Rattle.abc_outcome.specs.inner.Steps.{Refuses, refusing};

use crate::{Answer, AnswerFault};
use abc_num::{OutOfMemory, Text};
use std::alloc::Global;

/// Refuses item k by this fault, behind what it wrote.
pub(crate) fn refusal(
    alloc: Global,
    k: u64,
    output: Vec<u8>,
    n: u32,
    name: &str,
) -> Result<Answer, AnswerFault>
    ensures { Refuses (said output.items (fault_line k n name.now)) result }
{
    Ok(answered(fault_reply(alloc, k, output, n, name)?))
}

/// Refuses item k, since the unit with this template is missing.
pub(crate) fn missing(alloc: Global, k: u64, n: u32, template: &[u8]) -> Result<Answer, AnswerFault>
    ensures { Refuses (missing_line k n template.now) result }
{
    Ok(answered(missing_reply(alloc, k, n, template)?))
}

/// Answers item k, which shows this and keeps nothing.
pub(crate) fn showing(alloc: Global, k: u64, output: Vec<u8>) -> Result<Answer, AnswerFault>
    ensures { Refuses (said output.items (ok_line k)) result }
{
    Ok(answered(shown_reply(alloc, k, output)?))
}

/// The answer that is this reply, to an item that changes nothing.
fn answered(reply: Vec<u8>) -> Answer
    ensures { result ≡ refusing reply.items }
{
    Answer {
        reply: Text::from_vec(reply),
        quit: false,
    }
}

/// The reply in which item k is refused by this fault, behind what it wrote.
fn fault_reply(
    alloc: Global,
    k: u64,
    output: Vec<u8>,
    n: u32,
    name: &str,
) -> Result<Vec<u8>, OutOfMemory>
    ensures { IfOk result (λ reply. reply.items ≡ said output.items (fault_line k n name.now)) }
{
    let mut reply = ended(output)?;
    let line = fault_line(alloc, k, n, name)?;
    reply.extend_from_slice(&line)?;
    Ok(reply)
}

/// The reply in which item k is refused since the unit with this template is missing.
fn missing_reply(alloc: Global, k: u64, n: u32, template: &[u8]) -> Result<Vec<u8>, OutOfMemory>
    ensures { IfOk result (λ reply. reply.items ≡ missing_line k n template.now) }
{
    let mut reply = format!(in alloc; "[{k}] fault line {n}: Missing ")?.into_bytes();
    reply.extend_from_slice(template)?;
    reply.push(b'\n')?;
    Ok(reply)
}

/// The reply in which item k says that it was served, behind what it shows.
fn shown_reply(alloc: Global, k: u64, output: Vec<u8>) -> Result<Vec<u8>, OutOfMemory>
    ensures { IfOk result (λ reply. reply.items ≡ said output.items (ok_line k)) }
{
    let mut reply = ended(output)?;
    let line = ok_line(alloc, k)?;
    reply.extend_from_slice(&line)?;
    Ok(reply)
}

/// What an item wrote, with an LF where it ends in another byte.
pub(crate) fn ended(output: Vec<u8>) -> Result<Vec<u8>, OutOfMemory>
    ensures { IfOk result (λ reply. reply.items ≡ ended output.items) }
{
    let mut reply = output;
    if is_unended(&reply) {
        reply.push(b'\n')?;
    }
    Ok(reply)
}

/// Whether there are bytes, and the last is no LF.
#[tactic(auto, using(crate::proofs::Ends::none_unended, crate::proofs::Ends::last_unended))]
fn is_unended(bytes: &[u8]) -> bool
    ensures { result ≡ is_unended bytes.now }
{
    match bytes.split_last() {
        Some((last, _)) => *last != b'\n',
        None => false,
    }
}

/// The reply line of a command that ran, or of a line that asks and was answered.
pub(crate) fn ok_line(alloc: Global, k: u64) -> Result<Vec<u8>, OutOfMemory>
    ensures { IfOk result (λ line. line.items ≡ ok_line k) }
{
    Ok(format!(in alloc; "[{k}] ok\n")?.into_bytes())
}

/// The reply line of a unit that was accepted.
pub(crate) fn unit_line(alloc: Global, k: u64, template: &[u8]) -> Result<Vec<u8>, OutOfMemory>
    ensures { IfOk result (λ line. line.items ≡ unit_line k template.now None) }
{
    let mut line = format!(in alloc; "[{k}] unit ")?.into_bytes();
    line.extend_from_slice(template)?;
    line.push(b'\n')?;
    Ok(line)
}

/// The reply line of a unit that was accepted and waits for a missing one.
pub(crate) fn waiting_line(
    alloc: Global,
    k: u64,
    template: &[u8],
    missing: &[u8],
) -> Result<Vec<u8>, OutOfMemory>
    ensures { IfOk result (λ line. line.items ≡ unit_line k template.now (Some missing.now)) }
{
    let mut line = format!(in alloc; "[{k}] unit ")?.into_bytes();
    line.extend_from_slice(template)?;
    line.extend_from_slice(b" waits for ")?;
    line.extend_from_slice(missing)?;
    line.push(b'\n')?;
    Ok(line)
}

/// The reply line of an item that is refused by this fault.
pub(crate) fn fault_line(alloc: Global, k: u64, n: u32, name: &str) -> Result<Vec<u8>, OutOfMemory>
    ensures { IfOk result (λ line. line.items ≡ fault_line k n name.now) }
{
    Ok(format!(in alloc; "[{k}] fault line {n}: {name}\n")?.into_bytes())
}
