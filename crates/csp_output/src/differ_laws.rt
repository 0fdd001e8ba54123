//! Laws of what `differ` prints, each the contract of a function with no body.
ghost use Rattle.std.specs.Prelude.{◌≡◌, ◌↔◌, codes};
ghost use Rattle.csp_output.specs.Differing.{IsDiffering};
ghost use Rattle.csp_model.specs.Inclusion.{Subsumes};
ghost use Rattle.csp_model.specs.declared.policy.PolicyList.{PolicyList};
ghost use Rattle.csp_output.specs.Comparisons.{IsComparison};
ghost use Rattle.csp_output.specs.declared.built.Built.{Built};
ghost use Rattle.csp_output.specs.declared.status.Status.TheVariants as status;

use crate::laws::a_comparison_has_one_status;
use csp_compare::laws::no_difference_is_inclusion;

/// An output of `differ` says `not weaker` exactly where the second list allows every valid check that the first
/// allows, and has the status `Clean` exactly there. So it has the status of what `compare` prints of the same
/// lists.
pub fn differ_ends_as_compare()
    ensures said { (first second : PolicyList) (built : Built) → IsDiffering first second built
        → (built.text ≡ codes "not weaker\n") ↔ Subsumes first second }
    ensures clean { (first second : PolicyList) (built : Built) → IsDiffering first second built
        → (built.status ≡ status.Clean) ↔ Subsumes first second }
    ensures same { (first second : PolicyList) (built compared : Built) → IsDiffering first second built
        → IsComparison first second compared → built.status ≡ compared.status }
{
    no_difference_is_inclusion();
    a_comparison_has_one_status();
}
