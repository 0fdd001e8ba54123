//! What reporters tell of the violations that they hold.
ghost use Rattle.std.specs.Prelude.{◌≡◌, ◌++◌, IfOk, OnOk, OnErr, string_bytes};
ghost use Rattle.csp_desk.specs.Texts as spec;

use crate::counts::tally_text;
use crate::report::push_report;
use crate::reporter::Kind;
use csp_model::{Bytes, Memory, Violation};
use std::alloc::Global;
use std::collections::VecDeque;

// Adds the line of a violation behind a text, which is as it was where there is no memory.
pub(crate) fn push_line(
    alloc: Global,
    text: &mut Vec<u8>,
    violation: &Violation,
) -> Result<(), Memory>
    ensures ok { OnOk result (text.new.items ≡ text.old.items ++ spec.report_line violation.now) }
    ensures err { OnErr result (text.new.items ≡ text.old.items) }
{
    let before = text.len();
    push_report(alloc, text, violation)?;
    if text.push(b'\n').is_err() {
        text.truncate(before);
        return Err(Memory);
    }
    Ok(())
}

// The text, and behind it a report a line.
#[tactic(auto, unfolding(crate::specs::Texts::lines_text))]
fn append_lines(alloc: Global, text: Vec<u8>, held: &[Violation]) -> Result<Vec<u8>, Memory>
    ensures { IfOk result (λ made. made.items ≡ text.items ++ spec.lines_text held.now) }
{
    let mut text = text;
    for violation in held {
        push_line(alloc, &mut text, violation)?;
    }
    Ok(text)
}

pub(crate) fn lines_text(alloc: Global, held: &[Violation]) -> Result<Bytes, Memory>
    ensures { IfOk result (λ text. text ≡ spec.lines_text held.now) }
{
    Ok(Bytes::from_vec(append_lines(alloc, Vec::new(alloc), held)?))
}

fn earlier_line(alloc: Global, count: usize) -> Result<String, Memory>
    ensures { IfOk result (λ line. string_bytes line ≡ spec.earlier_line count) }
{
    if count == 0 {
        return Ok(String::new(alloc));
    }
    Ok(format!(in alloc; "earlier {count}\n")?)
}

#[tactic(auto, unfolding(crate::specs::Texts::recent_text))]
pub(crate) fn recent_text(alloc: Global, limit: u32, held: &[Violation]) -> Result<Bytes, Memory>
    ensures { IfOk result (λ text. text ≡ spec.recent_text limit held.now) }
{
    let earlier = held.len().saturating_sub(limit as usize);
    let text = earlier_line(alloc, earlier)?.into_bytes();
    Ok(Bytes::from_vec(append_lines(alloc, text, &held[earlier..])?))
}

// The lines of violations in a queue, behind the number of those before them.
pub(crate) fn latest_text(
    alloc: Global,
    earlier: usize,
    latest: &VecDeque<Violation>,
) -> Result<Bytes, Memory>
    ensures { IfOk result (λ text.
        text ≡ spec.earlier_line earlier ++ spec.lines_text latest.now.items) }
{
    let text = earlier_line(alloc, earlier)?.into_bytes();
    Ok(Bytes::from_vec(append_latest(alloc, text, latest)?))
}

// The text, and behind it a report a line.
#[tactic(auto, unfolding(crate::specs::Texts::lines_text))]
fn append_latest(
    alloc: Global,
    text: Vec<u8>,
    latest: &VecDeque<Violation>,
) -> Result<Vec<u8>, Memory>
    ensures { IfOk result (λ made. made.items ≡ text.items ++ spec.lines_text latest.now.items) }
{
    let mut text = text;
    for place in 0..latest.len() {
        push_line(alloc, &mut text, &latest[place])?;
    }
    Ok(text)
}

/// What a reporter of a kind tells of the violations that it holds.
pub fn text_of(alloc: Global, kind: Kind, held: &[Violation]) -> Result<Bytes, Memory>
    ensures { IfOk result (λ text. text ≡ spec.report_text kind held.now) }
{
    match kind {
        Kind::Lines => lines_text(alloc, held),
        Kind::Tally => tally_text(alloc, held),
        Kind::Recent { limit } => recent_text(alloc, limit, held),
    }
}
