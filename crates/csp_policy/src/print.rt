//! Prints policies.
ghost use Rattle.std.specs.Prelude.{◌≡◌, ◌++◌, IfOk, OnOk, string_bytes};
ghost use Rattle.csp_model.specs.Policies as spec;

use csp_model::{Directive, Memory, Policy, Text};
use std::alloc::Global;

// Adds a directive to a text: its name and its tokens, with a space between each two.
fn push_directive(text: &mut String, directive: &Directive) -> Result<(), Memory>
    ensures { OnOk result
        (string_bytes text.new ≡ string_bytes text.old ++ spec.directive_text directive.now) }
{
    text.push_str(directive.name.as_str())?;
    for token in directive.tokens.as_slice() {
        text.push_str(" ")?;
        text.push_str(token.as_str())?;
    }
    Ok(())
}

/// A policy as a serialized policy: its directives with `; ` between each two, and in each the name and the
/// tokens with a space between each two (Content Security Policy Level 3, section 2.2.1).
pub fn policy_text(alloc: Global, policy: &Policy) -> Result<Text, Memory>
    ensures { IfOk result (λ text. text ≡ spec.policy_text policy.now) }
{
    let mut text = String::new(alloc);
    let Some((first, others)) = policy.directives.as_slice().split_first() else {
        return Ok(Text::from_string(text));
    };
    push_directive(&mut text, first)?;
    for directive in others {
        text.push_str("; ")?;
        push_directive(&mut text, directive)?;
    }
    Ok(Text::from_string(text))
}
