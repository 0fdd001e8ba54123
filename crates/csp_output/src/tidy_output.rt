//! What `tidy` prints: an equivalent list from which no token can be taken, and what shows that it is one.
ghost use Rattle.std.specs.Prelude.{◌≡◌, ◌++◌, All, IfOk, Ok, OnOk};
ghost use Rattle.std.specs.List.{flat_map};
ghost use Rattle.csp_model.specs.Policies.{IsReadable};
ghost use Rattle.csp_model.specs.Validity.{IsValidCheck};
ghost use Rattle.csp_policy.specs.HeaderLines as headers;
ghost use Rattle.csp_proof.specs.Spelling as spelling;
ghost use Rattle.csp_proof.specs.WellFormed.{IsWellFormed};
ghost use Rattle.csp_output.specs.Tidyings as spec;

use crate::built::Built;
use crate::compare_output::push_description;
use crate::lines::push_all;
use crate::status::Status;
use csp_model::{Bytes, Disposition, Memory, Policy, PolicyList};
use csp_policy::policy_text;
use csp_proof::{Proof, proof_text};
use csp_tidy::{Needed, tidy as tidied_of};
use itoa::Buffer;
use std::alloc::Global;

/// What `tidy` prints. The line `tidied` comes first, and then a header line for each policy of an equivalent
/// list from which no token can be taken. For each token that could be taken by its kind follow a line
/// `needed` and a check, which only one of two lists allows: the printed one, and that without the token. At
/// the end stand a proof that the printed list allows all that the old one allows, and a proof of the
/// converse. The status is `Clean`.
pub fn tidy(alloc: Global, list: &PolicyList) -> Result<Built, Memory>
    requires { IsReadable list.now }
    ensures { IfOk result (spec.IsTidying list.now) }
{
    let tidied = tidied_of(alloc, list)?;
    let mut text = Vec::from_slice(alloc, b"tidied\n")?;
    push_headers(alloc, &mut text, tidied.list.policies.as_slice())?;
    push_reasons(alloc, &mut text, &tidied.list, tidied.needed.as_slice())?;
    push_proof(alloc, &mut text, "input to output\n", &tidied.forward)?;
    push_proof(alloc, &mut text, "output to input\n", &tidied.backward)?;
    Ok(Built {
        status: Status::Clean,
        text: Bytes::from_vec(text),
    })
}

// Writes a header line for each policy.
fn push_headers(alloc: Global, text: &mut Vec<u8>, policies: &[Policy]) -> Result<(), Memory>
    ensures { OnOk result (text.new.items ≡ text.old.items ++ headers.header_lines policies.now) }
{
    for policy in policies {
        push_header(alloc, text, policy)?;
    }
    Ok(())
}

fn push_header(alloc: Global, text: &mut Vec<u8>, policy: &Policy) -> Result<(), Memory>
    ensures { OnOk result (text.new.items ≡ text.old.items ++ headers.header_line policy.now) }
{
    let value = policy_text(alloc, policy)?;
    push_all(text, &[header_name(policy), ": ", value.as_str(), "\n"])
}

// The name of the header that delivers such a policy.
fn header_name(policy: &Policy) -> &'static str
    ensures { result.now ≡ headers.header_name policy.now }
{
    if policy.meta {
        return "Meta-Content-Security-Policy";
    }
    match policy.disposition {
        Disposition::Enforce => "Content-Security-Policy",
        Disposition::Report => "Content-Security-Policy-Report-Only",
    }
}

// Writes why each of these tokens of the list stays.
fn push_reasons(
    alloc: Global,
    text: &mut Vec<u8>,
    list: &PolicyList,
    needed: &[Needed],
) -> Result<(), Memory>
    requires { All (λ needed. IsValidCheck needed.check) needed.now }
    ensures text { OnOk result
        (text.new.items ≡ text.old.items ++ flat_map (spec.reason_text list.now) needed.now) }
    ensures read_back { OnOk result (All spec.IsReadBack needed.now) }
{
    for entry in needed {
        push_reason(alloc, text, list, entry)?;
    }
    Ok(())
}

// Writes why a token stays: its line, and the check.
fn push_reason(
    alloc: Global,
    text: &mut Vec<u8>,
    list: &PolicyList,
    needed: &Needed,
) -> Result<(), Memory>
    requires { IsValidCheck needed.now.check }
    ensures text { OnOk result (text.new.items ≡ text.old.items ++ spec.reason_text list.now needed.now) }
    ensures read_back { OnOk result (spec.IsReadBack needed.now) }
{
    push_token(text, list, needed)?;
    push_description(alloc, text, &needed.check)
}

// Writes the line of a token that stays.
fn push_token(text: &mut Vec<u8>, list: &PolicyList, needed: &Needed) -> Result<(), Memory>
    ensures { OnOk result (text.new.items ≡ text.old.items ++ spec.needed_line list.now needed.now) }
{
    let Some(policy) = list.policies.get(needed.policy as usize) else {
        return Ok(());
    };
    let Some(directive) = policy.directives.get(needed.directive as usize) else {
        return Ok(());
    };
    let Some(token) = directive.tokens.get(needed.token as usize) else {
        return Ok(());
    };
    text.extend_from_slice(b"needed ")?;
    text.extend_from_slice(Buffer::new().format(needed.policy).as_bytes())?;
    text.push(b' ')?;
    text.extend_from_slice(directive.name.as_str().as_bytes())?;
    text.push(b' ')?;
    text.extend_from_slice(token.as_str().as_bytes())?;
    text.extend_from_slice(which_allows(needed.allowed_with).as_bytes())?;
    Ok(())
}

// Which list allows the check: the one with the token, or the one without it.
fn which_allows(allowed_with: bool) -> &'static str
    ensures { result.now ≡ spec.which_allows allowed_with }
{
    if allowed_with {
        " with\n"
    } else {
        " without\n"
    }
}

// Writes a proof under its title.
fn push_proof(alloc: Global, text: &mut Vec<u8>, title: &str, proof: &Proof) -> Result<(), Memory>
    requires { IsWellFormed proof.now }
    ensures { OnOk result
        (text.new.items ≡ text.old.items ++ (title.now ++ spelling.proof_text proof.now)) }
{
    text.extend_from_slice(title.as_bytes())?;
    text.extend_from_slice(proof_text(alloc, proof)?.as_slice())?;
    Ok(())
}
