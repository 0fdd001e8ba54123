//! A violation, printed.
ghost use Rattle.std.specs.Prelude.{◌≡◌, ◌++◌, IfOk, OnOk, OnErr};
ghost use Rattle.std.specs.List.{flat_map};
ghost use Rattle.json.specs.Tree.{json_tokens};
ghost use Rattle.csp_desk.specs.Report as spec;
ghost use Rattle.csp_desk.specs.Report.{ending_tokens, member_tokens, report_value, report_bytes};

use crate::front::push_front;
use csp_model::{Bytes, Memory, Violation, name_text};
use json::Writer;
use std::alloc::{AllocError, Global};

fn write_members(out: &mut Writer, members: &[(&str, &str)]) -> Result<(), AllocError>
    ensures tokens { OnOk result (out.new.tokens
        ≡ out.old.tokens ++ flat_map (λ m. member_tokens m.0.now m.1.now) members.now) }
    ensures before { out.new.before ≡ out.old.before }
{
    for &(name, value) in members {
        out.key(name)?;
        out.string(value)?;
    }
    Ok(())
}

// Writes what a report tells behind the blocked URI.
fn write_ending(out: &mut Writer, violation: &Violation) -> Result<(), AllocError>
    ensures tokens { OnOk result (out.new.tokens ≡ out.old.tokens ++ ending_tokens violation.now.disposition
        violation.now.effective violation.now.policy violation.now.sample) }
    ensures before { out.new.before ≡ out.old.before }
{
    let disposition = violation.disposition.as_str();
    let directive = name_text(violation.effective);
    let policy = violation.policy.as_str();
    let sample = violation.sample.as_str();
    let members = [
        ("disposition", disposition),
        ("effective-directive", directive),
        ("original-policy", policy),
        ("script-sample", sample),
        ("violated-directive", directive),
    ];
    write_members(out, &members)?;
    out.end_object()
}

fn write_report(out: &mut Writer, violation: &Violation) -> Result<(), AllocError>
    ensures tokens { OnOk result
        (out.new.tokens ≡ out.old.tokens ++ json_tokens (report_value violation.now)) }
    ensures before { out.new.before ≡ out.old.before }
{
    let blocked_uri = violation.blocked_uri.as_str();
    out.begin_object()?;
    write_members(out, &[("blocked-uri", blocked_uri)])?;
    write_ending(out, violation)
}

/// Adds the report of a violation, as `report_json` gives it, behind a text. The text isn't copied.
///
/// Where there is no memory, it is as it was.
pub fn push_report(alloc: Global, text: &mut Vec<u8>, violation: &Violation) -> Result<(), Memory>
    ensures ok { OnOk result (text.new.items ≡ text.old.items ++ report_bytes violation.now) }
    ensures err { OnErr result (text.new.items ≡ text.old.items) }
{
    let ending = report_ending(alloc, violation)?;
    let before = text.len();
    push_front(alloc, text, violation.blocked_uri.as_str())?;
    match text.extend_from_slice(ending.as_slice()) {
        Ok(()) => Ok(()),
        Err(_) => {
            text.truncate(before);
            Err(Memory)
        }
    }
}

/// The report of a violation: one JSON object (RFC 8259) with no space, whose members are texts, in this
/// order: `blocked-uri`, `disposition`, `effective-directive`, `original-policy`, `script-sample`,
/// `violated-directive`. The first and the last directive are one.
#[tactic(auto, unfolding(crate::specs::Report::report_bytes))]
pub fn report_json(alloc: Global, violation: &Violation) -> Result<Bytes, Memory>
    ensures { IfOk result (λ report. report ≡ report_bytes violation.now) }
{
    let mut out = Writer::new(Vec::new(alloc));
    write_report(&mut out, violation)?;
    Ok(Bytes::from_vec(out.into_inner()))
}

/// What a report says behind its front, as `push_front` adds it. It is the same for all violations of one
/// policy, directive and sample.
#[tactic(auto, unfolding(crate::specs::Report::report_ending))]
pub fn report_ending(alloc: Global, violation: &Violation) -> Result<Bytes, Memory>
    ensures { IfOk result (λ ending. ending ≡ spec.report_ending violation.now.disposition
        violation.now.effective violation.now.policy violation.now.sample) }
{
    let mut text = Vec::new(alloc);
    text.push(b',')?;
    let mut out = Writer::new(text);
    write_ending(&mut out, violation)?;
    Ok(Bytes::from_vec(out.into_inner()))
}
