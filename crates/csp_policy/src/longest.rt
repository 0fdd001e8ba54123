//! The longest text of some policies.
ghost use Rattle.std.specs.Prelude.{◌≡◌, ◌∷◌, length, max};
ghost use Rattle.std.specs.List.{flat_map, fold};
ghost use Rattle.csp_model.specs.Policies as spec;

use csp_model::{Directive, Policy, Text};

// The longest of these lengths: those of the texts, and this one.
fn longest_token(texts: &[Text], mut longest: usize) -> usize
    ensures { result ≡ fold (λ n text. max n (length text)) longest texts.now }
{
    for text in texts {
        longest = longest.max(text.as_str().len());
    }
    longest
}

// The longest of these lengths: those of the directives' names and tokens, and this one.
fn longest_in(directives: &[Directive], mut longest: usize) -> usize
    ensures { result
        ≡ fold (λ n text. max n (length text)) longest (flat_map (λ d. d.name ∷ d.tokens) directives.now) }
{
    for directive in directives {
        longest = longest.max(directive.name.as_str().len());
        longest = longest_token(directive.tokens.as_slice(), longest);
    }
    longest
}

// The length of the longest name or token.
pub(crate) fn longest_text(policies: &[Policy]) -> usize
    ensures { result ≡ spec.longest_text policies.now }
{
    let mut longest = 0;
    for policy in policies {
        longest = longest_in(policy.directives.as_slice(), longest);
    }
    longest
}
