//! What `compare` prints: a proof that the second list allows what the first allows, or a check that shows
//! that it doesn't.
ghost use Rattle.std.specs.Prelude.{◌≡◌, ◌≤◌, ◌++◌, ◌∷◌, [], IfOk, OnOk, Ok, length, codes};
ghost use Rattle.csp_model.specs.Parts.{checked_url};
ghost use Rattle.csp_model.specs.Policies.{IsReadable, policy_limit};
ghost use Rattle.csp_model.specs.Validity.{IsValidCheck};
ghost use Rattle.csp_model.specs.Verdict.{verdict_of};
ghost use Rattle.csp_request.specs.Requests.{check_of};
ghost use Rattle.csp_output.specs.Comparisons as spec;

use crate::built::Built;
use crate::lines::{push_all, push_items};
use crate::status::Status;
use csp_compare::{Answer, compare as answer};
use csp_model::{Bytes, Check, Described, Duplicate, List, Memory, PolicyList, Text, Verdict};
use csp_proof::proof_text;
use csp_request::check_json;
use csp_url::url_text;
use csp_verdict::judge;
use std::alloc::Global;

/// What `compare` prints: a proof that the second list allows all that the first allows, with the status
/// `Clean`; or, with `Found`, a check that the first allows and the second blocks.
pub fn compare(alloc: Global, first: &PolicyList, second: &PolicyList) -> Result<Built, Memory>
    requires first { IsReadable first.now }
    requires second { IsReadable second.now }
    ensures { IfOk result (spec.IsComparison first.now second.now) }
{
    match answer(alloc, first, second)? {
        Answer::Subsumed { proof } => Ok(Built {
            status: Status::Clean,
            text: proof_text(alloc, &proof)?,
        }),
        Answer::Counterexample { check } => Ok(Built {
            status: Status::Found,
            text: difference(alloc, second, &check)?,
        }),
    }
}

// The lines on a check that the second list blocks.
pub(crate) fn difference(alloc: Global, second: &PolicyList, check: &Check) -> Result<Bytes, Memory>
    requires few { length second.now.policies ≤ policy_limit }
    requires valid { IsValidCheck check.now }
    ensures text { IfOk result (λ text. text ≡ spec.difference_text second.now check.now) }
    ensures read_back { IfOk result (λ text. check_of (spec.description_of check.now) ≡ Ok check.now) }
{
    let mut text = Vec::from_slice(alloc, b"not subsumed\n")?;
    push_difference(alloc, &mut text, second, check)?;
    Ok(Bytes::from_vec(text))
}

/// Writes the lines on a check that the second of two lists blocks: a description that reads back to the check,
/// its URL where it has one, and what blocks it.
pub fn push_difference(
    alloc: Global,
    text: &mut Vec<u8>,
    second: &PolicyList,
    check: &Check,
) -> Result<(), Memory>
    requires few { length second.now.policies ≤ policy_limit }
    requires valid { IsValidCheck check.now }
    ensures text { OnOk result
        (text.new.items ≡ text.old.items ++ spec.shown_text second.now check.now) }
    ensures read_back { OnOk result (check_of (spec.description_of check.now) ≡ Ok check.now) }
{
    push_description(alloc, text, check)?;
    push_url(alloc, text, check)?;
    push_blocked(alloc, text, second, check)
}

// Writes the line of a check as a description, which reads back to the check.
pub(crate) fn push_description(
    alloc: Global,
    text: &mut Vec<u8>,
    check: &Check,
) -> Result<(), Memory>
    requires { IsValidCheck check.now }
    ensures text { OnOk result
        (text.new.items ≡ text.old.items ++ (spec.description_of check.now ++ codes "\n")) }
    ensures read_back { OnOk result (check_of (spec.description_of check.now) ≡ Ok check.now) }
{
    let description = check_json(alloc, check)?;
    text.extend_from_slice(description.as_slice())?;
    text.push(b'\n')?;
    Ok(())
}

// Writes the line of a check's URL, where it has one.
fn push_url(alloc: Global, text: &mut Vec<u8>, check: &Check) -> Result<(), Memory>
    ensures { OnOk result (text.new.items ≡ text.old.items ++ spec.url_line (checked_url check.now)) }
{
    match check.url() {
        None => Ok(()),
        Some(url) => {
            let shown = url_text(alloc, url)?;
            push_all(text, &["url ", shown.as_str(), "\n"])
        }
    }
}

// Writes the line of what a list blocks of a check.
fn push_blocked(
    alloc: Global,
    text: &mut Vec<u8>,
    list: &PolicyList,
    check: &Check,
) -> Result<(), Memory>
    requires { length list.now.policies ≤ policy_limit }
    ensures { OnOk result (text.new.items ≡ text.old.items ++ spec.blocked_text list.now check.now) }
{
    let verdict = judge_check(alloc, list, check)?;
    text.extend_from_slice(b"second blocked")?;
    push_items(text, verdict.items.as_slice())?;
    text.push(b'\n')?;
    Ok(())
}

// The verdict of a list on one check.
fn judge_check(alloc: Global, list: &PolicyList, check: &Check) -> Result<Verdict, Memory>
    requires { length list.now.policies ≤ policy_limit }
    ensures { IfOk result (λ verdict. verdict ≡ verdict_of list.now (check.now ∷ [])) }
{
    let described = request_of(alloc, check)?;
    judge(alloc, list, &described)
}

// A request of one check, of which a report would show nothing.
fn request_of(alloc: Global, check: &Check) -> Result<Described, Memory>
    ensures { IfOk result (λ described. described.checks ≡ check.now ∷ []) }
{
    let mut checks = List::new(alloc);
    checks.push(check.copy(alloc)?)?;
    Ok(Described {
        checks,
        blocked_uri: Text::new(alloc, "")?,
        sample: Text::new(alloc, "")?,
    })
}
