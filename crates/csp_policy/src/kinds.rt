//! What is told of directives and of their tokens.
ghost use Rattle.std.specs.Prelude.{◌≡◌};
ghost use Rattle.csp_policy.specs.Told as spec;

use crate::fate::Reason;
use csp_model::{Disposition, Name, Source, name_text};

fn is_name(known: Name, name: &str) -> bool
    ensures { result ≡ spec.is_name known name.now }
{
    name == name_text(known)
}

// Whether it is the name of a directive that may govern a check.
#[tactic(auto, unfolding(crate::specs::Told::may_govern))]
fn may_govern(name: &str) -> bool
    ensures { result ≡ spec.may_govern name.now }
{
    Name::ALL.iter().any(|known| is_name(*known, name))
}

// Whether a check may be governed by the directive of this name. A sandbox governs where the policy is enforced.
#[tactic(auto, unfolding(crate::specs::Told::decides))]
pub(crate) fn decides(disposition: Disposition, name: &str) -> bool
    ensures { result ≡ spec.decides disposition name.now }
{
    if is_name(Name::Sandbox, name) {
        disposition == Disposition::Enforce
    } else {
        may_govern(name)
    }
}

// What kind of a source expression it is.
#[tactic(auto, unfolding(crate::specs::Told::kind_text))]
pub(crate) fn kind_text(source: &Source) -> &'static str
    ensures { result.now ≡ spec.kind_text source.now }
{
    match source {
        Source::Star => "star",
        Source::SchemeOnly { .. } => "scheme",
        Source::Hosted { .. } => "host",
        Source::Word { .. } => "keyword",
        Source::Nonce { .. } => "nonce",
        Source::Digest { .. } => "hash",
        Source::Other { token } => {
            if token.as_str().eq_ignore_ascii_case("'none'") {
                "none"
            } else {
                "other"
            }
        }
    }
}

pub(crate) fn reason_text(reason: Reason) -> &'static str
    ensures { result.now ≡ spec.reason_text reason }
{
    match reason {
        Reason::Duplicate => "duplicate",
        Reason::NotAscii => "not-ascii",
        Reason::NotInMeta => "not-in-meta",
    }
}
