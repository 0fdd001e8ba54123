//! The checks that a directive governs.
ghost use Rattle.std.specs.Prelude.{◌≡◌, IfOk};
ghost use Rattle.std.specs.List.{filter};
ghost use Rattle.csp_compare.specs.Differences.{effective_names};
ghost use Rattle.csp_tidy.specs.Governed as spec;

use csp_compare::effective_directives;
use csp_match::governor;
use csp_model::{Directive, Memory, Name, Policy, name_text};
use std::alloc::Global;

// The effective directives of the checks that a directive of the policy governs.
pub(crate) fn governed_names(
    alloc: Global,
    policy: &Policy,
    directive: &Directive,
) -> Result<Vec<Name>, Memory>
    ensures { IfOk result (λ names.
        names.items ≡ filter (spec.governs policy.now directive.now) effective_names) }
{
    let mut names = Vec::new(alloc);
    for effective in effective_directives() {
        if governs(policy, directive, *effective) {
            names.push(*effective)?;
        }
    }
    Ok(names)
}

fn governs(policy: &Policy, directive: &Directive, effective: Name) -> bool
    ensures { result ≡ spec.governs policy.now directive.now effective }
{
    match governor(policy, effective) {
        Some(found) => directive.name.as_str() == name_text(found.name),
        None => false,
    }
}
