//! Policies (Content Security Policy Level 3, section 2.2).
ghost use Rattle.std.specs.Prelude.{◌≡◌, ◌≤◌, length, IfOk};
ghost use Rattle.csp_model.specs.Names as spec;
ghost use Rattle.csp_model.specs.Policies.{policy_limit};
ghost use Rattle.csp_model.specs.Verdict as verdict;

use crate::list::List;
use crate::memory::Memory;
use crate::source::Source;
use crate::text::Text;
use crate::url::Origin;
use std::alloc::Global;

/// A directive of a policy.
#[derive(Debug, PartialEq, Eq, Drop)]
pub struct Directive {
    /// Its name in lower case.
    pub name: Text,
    /// The tokens of its value, as they are written.
    pub tokens: List<Text>,
    /// What each token stands for, in order.
    pub sources: List<Source>,
}

/// Whether a policy blocks, or only reports.
#[derive(Clone, Copy, Debug, PartialEq, Eq)]
pub enum Disposition {
    Enforce,
    Report,
}

impl Disposition {
    /// The disposition as it is written: `enforce` or `report`.
    pub fn as_str(self) -> &'static str
        ensures { result.now ≡ spec.disposition_text self }
    {
        match self {
            Disposition::Enforce => "enforce",
            Disposition::Report => "report",
        }
    }
}

/// A policy.
#[derive(Debug, PartialEq, Eq, Drop)]
pub struct Policy {
    pub disposition: Disposition,
    /// Whether a meta element delivered it.
    pub meta: bool,
    /// The origin that `'self'` and host-sources without a scheme speak of.
    pub origin: Origin,
    /// The first directive of each name, in order.
    pub directives: List<Directive>,
}

/// The policies of a response or a document, in order.
#[derive(Debug, PartialEq, Eq, Drop)]
pub struct PolicyList {
    pub policies: List<Policy>,
}

impl PolicyList {
    /// The numbers of the enforced policies, counted from 0.
    pub fn enforced(&self, alloc: Global) -> Result<Vec<u32>, Memory>
        requires { length self.now.policies ≤ policy_limit }
        ensures { IfOk result (λ numbers. numbers.items ≡ verdict.enforced self.now) }
    {
        let mut numbers = Vec::new(alloc);
        let mut number = 0u32;
        for policy in self.policies.as_slice() {
            if policy.disposition == Disposition::Enforce {
                numbers.push(number)?;
            }
            number += 1;
        }
        Ok(numbers)
    }
}
