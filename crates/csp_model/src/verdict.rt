//! What a list of policies answers to a described request.
use crate::check::Check;
use crate::list::List;
use crate::name::Name;
use crate::policy::Disposition;
use crate::text::Text;

/// One policy that doesn't allow a check.
#[derive(Clone, Copy, Debug, PartialEq, Eq)]
pub struct Item {
    /// The policy's number in its list, from 0.
    pub policy: u32,
    pub disposition: Disposition,
    /// The directive that the check asks for.
    pub effective: Name,
    /// The directive that decided in its place, or itself.
    pub governing: Name,
}

/// The answer to a request.
#[derive(Debug, PartialEq, Eq, Drop)]
pub struct Verdict {
    /// Whether an enforced policy doesn't allow it.
    pub blocked: bool,
    pub items: List<Item>,
}

/// A request, and what a report about it would say.
#[derive(Debug, PartialEq, Eq, Drop)]
pub struct Described {
    pub checks: List<Check>,
    pub blocked_uri: Text,
    /// The first 40 characters of an inline source or of an evaluated string, else empty.
    pub sample: Text,
}

/// What a report says of one item of a verdict.
#[derive(Debug, PartialEq, Eq, Drop)]
pub struct Violation {
    pub disposition: Disposition,
    pub effective: Name,
    pub blocked_uri: Text,
    pub sample: Text,
    /// The policy, printed.
    pub policy: Text,
}
