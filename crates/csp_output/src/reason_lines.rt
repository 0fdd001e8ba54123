//! What `why` prints behind the line of a verdict: what each policy says of the checks.
ghost use Rattle.std.specs.Prelude.{◌≡◌, ◌≤◌, ◌++◌, IfOk, OnOk, length, option_copied};
ghost use Rattle.csp_model.specs.Ascii.{is_nonempty};
ghost use Rattle.csp_model.specs.Policies.{policy_limit};
ghost use Rattle.csp_output.specs.Explanations as spec;

use crate::lines::push_all;
use csp_match::governor;
use csp_model::{Check, Disposition, Memory, Name, Policy, PolicyList, Text, Url, name_text};
use csp_url::url_text;
use csp_verdict::{allows, effective_name, list_allows};
use csp_why::{Near, Obstacle, Reason, explain, missing_url};
use itoa::Buffer;
use std::alloc::Global;

// Writes why each policy allows or blocks each judged check that some policy doesn't allow, or else the
// last check.
pub(crate) fn push_reasons(
    alloc: Global,
    text: &mut Vec<u8>,
    list: &PolicyList,
    checks: &[Check],
) -> Result<(), Memory>
    requires { length list.now.policies ≤ policy_limit }
    ensures { OnOk result (text.new.items ≡ text.old.items ++ spec.reasons_text list.now checks.now) }
{
    if push_refused(alloc, text, list, checks)? {
        return Ok(());
    }
    match checks.last() {
        None => Ok(()),
        Some(check) => push_check(alloc, text, list.policies.as_slice(), check),
    }
}

// Writes each judged check that some policy doesn't allow. Answers whether there is one.
fn push_refused(
    alloc: Global,
    text: &mut Vec<u8>,
    list: &PolicyList,
    checks: &[Check],
) -> Result<bool, Memory>
    requires { length list.now.policies ≤ policy_limit }
    ensures text { OnOk result (text.new.items ≡ text.old.items
        ++ spec.checks_text list.now.policies (spec.refused_checks list.now checks.now)) }
    ensures found { IfOk result (λ found. found ≡ is_nonempty (spec.refused_checks list.now checks.now)) }
{
    let mut found = false;
    for check in checks {
        if is_refused(list, check) {
            push_check(alloc, text, list.policies.as_slice(), check)?;
            found = true;
        }
        if !list_allows(list, check) {
            break;
        }
    }
    Ok(found)
}

fn is_refused(list: &PolicyList, check: &Check) -> bool
    ensures { result ≡ spec.is_refused list.now check.now }
{
    list.policies
        .as_slice()
        .iter()
        .any(|policy| !allows(policy, check))
}

fn push_check(
    alloc: Global,
    text: &mut Vec<u8>,
    policies: &[Policy],
    check: &Check,
) -> Result<(), Memory>
    requires { length policies.now ≤ policy_limit }
    ensures { OnOk result (text.new.items ≡ text.old.items ++ spec.check_text policies.now check.now) }
{
    push_url(alloc, text, check)?;
    for (number, policy) in policies.iter().enumerate() {
        push_policy(alloc, text, number as u32, policy, check)?;
    }
    Ok(())
}

fn push_url(alloc: Global, text: &mut Vec<u8>, check: &Check) -> Result<(), Memory>
    ensures { OnOk result (text.new.items ≡ text.old.items ++ spec.told_url check.now) }
{
    match check.url() {
        None => Ok(()),
        Some(url) => {
            let shown = url_text(alloc, url)?;
            push_all(text, &["  url ", shown.as_str(), "\n"])
        }
    }
}

// Writes why the policy of this number allows or blocks a check.
fn push_policy(
    alloc: Global,
    text: &mut Vec<u8>,
    number: u32,
    policy: &Policy,
    check: &Check,
) -> Result<(), Memory>
    ensures { OnOk result (text.new.items
        ≡ text.old.items ++ spec.policy_text number policy.now check.now) }
{
    let reason = explain(alloc, policy, check)?;
    push_all(text, &["  ", Buffer::new().format(number), " "])?;
    let tokens = governing_tokens(policy, check);
    push_reason(text, policy.disposition, &reason, tokens)?;
    push_missing(text, &reason, missing_url(policy, check, &reason))
}

fn push_reason(
    text: &mut Vec<u8>,
    disposition: Disposition,
    reason: &Reason,
    tokens: &[Text],
) -> Result<(), Memory>
    ensures { OnOk result (text.new.items
        ≡ text.old.items ++ spec.reason_text disposition tokens.now reason.now) }
{
    match reason {
        Reason::Ungoverned => push_all(text, &["- allows\n"]),
        Reason::Allows { directive, by } => {
            let name = name_text(*directive);
            let rule = by.rule.as_str();
            push_all(text, &[name, " allows ", rule, " "])?;
            push_text(text, token_at(tokens, by.token))?;
            push_text(text, "\n")
        }
        Reason::Blocks { directive, near } => {
            let name = name_text(*directive);
            push_all(text, &[name, refusal_text(disposition)])?;
            push_near(text, near.as_slice(), tokens)
        }
    }
}

// What a policy that doesn't allow a check does.
fn refusal_text(disposition: Disposition) -> &'static str
    ensures { result.now ≡ spec.refusal_text disposition }
{
    match disposition {
        Disposition::Enforce => " blocks\n",
        Disposition::Report => " would block\n",
    }
}

fn push_near(text: &mut Vec<u8>, near: &[Near], tokens: &[Text]) -> Result<(), Memory>
    ensures { OnOk result (text.new.items ≡ text.old.items ++ spec.near_text tokens.now near.now) }
{
    for found in near {
        push_near_line(text, token_at(tokens, found.token), found.word)?;
    }
    Ok(())
}

fn push_near_line(text: &mut Vec<u8>, token: &str, word: Obstacle) -> Result<(), Memory>
    ensures { OnOk result (text.new.items ≡ text.old.items ++ spec.near_line token.now word) }
{
    let word = word.as_str();
    push_text(text, "    ")?;
    push_text(text, token)?;
    push_all(text, &[" ", word, "\n"])
}

fn push_text(text: &mut Vec<u8>, piece: &str) -> Result<(), Memory>
    ensures { OnOk result (text.new.items ≡ text.old.items ++ piece.now) }
{
    text.extend_from_slice(piece.as_bytes())?;
    Ok(())
}

// The source that would allow the check, where one is missing.
fn push_missing(text: &mut Vec<u8>, reason: &Reason, missing: Option<&Url>) -> Result<(), Memory>
    ensures { OnOk result (text.new.items
        ≡ text.old.items ++ spec.missing_text reason.now (option_copied missing.entry)) }
{
    match (reason, missing) {
        (Reason::Blocks { directive, .. }, Some(url)) => push_missing_line(text, *directive, url),
        _ => Ok(()),
    }
}

fn push_missing_line(text: &mut Vec<u8>, directive: Name, url: &Url) -> Result<(), Memory>
    ensures { OnOk result (text.new.items ≡ text.old.items ++ spec.missing_line directive url.now) }
{
    push_text(text, "    add ")?;
    push_source(text, url)?;
    let name = name_text(directive);
    push_all(text, &[" to ", name, "\n"])
}

// The source of a URL, as a token.
fn push_source(text: &mut Vec<u8>, url: &Url) -> Result<(), Memory>
    ensures { OnOk result (text.new.items ≡ text.old.items ++ spec.joined (spec.source_pieces url.now)) }
{
    match url {
        Url::Plain { scheme } => {
            push_text(text, scheme.as_str())?;
            push_text(text, ":")
        }
        Url::Hosted {
            scheme,
            host,
            port,
            ..
        } => {
            push_text(text, scheme.as_str())?;
            push_text(text, "://")?;
            push_text(text, host.as_str())?;
            push_port(text, *port)
        }
    }
}

fn push_port(text: &mut Vec<u8>, port: Option<u16>) -> Result<(), Memory>
    ensures { OnOk result (text.new.items ≡ text.old.items ++ spec.joined (spec.port_pieces port)) }
{
    match port {
        None => Ok(()),
        Some(port) => push_all(text, &[":", Buffer::new().format(port)]),
    }
}

// The tokens of the directive that governs a check, none where none does.
fn governing_tokens<'a>(policy: &'a Policy, check: &Check) -> &'a [Text]
    ensures { result.now ≡ spec.governing_tokens policy.now check.now }
{
    match governor(policy, effective_name(check)) {
        Some(found) => found.directive.tokens.as_slice(),
        None => &[],
    }
}

fn token_at(tokens: &[Text], index: usize) -> &str
    ensures { result.now ≡ spec.token_at tokens.now index }
{
    match tokens.get(index) {
        Some(token) => token.as_str(),
        None => "",
    }
}
