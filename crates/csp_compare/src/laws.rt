//! Laws of differences, each the contract of a function with no body.
ghost use Rattle.std.specs.Prelude.{◌≡◌, ◌↔◌, List as Items, [], ◌∷◌, Contains};
ghost use Rattle.csp_compare.specs.Differences.{AreDifferences, DiffersAmong, directives_of};
ghost use Rattle.csp_compare.specs.declared.differences.Difference.{Difference};
ghost use Rattle.csp_model.specs.Inclusion.{Subsumes};
ghost use Rattle.csp_model.specs.declared.check.Check.{Check};
ghost use Rattle.csp_model.specs.declared.name.Name.{Name};
ghost use Rattle.csp_model.specs.declared.policy.PolicyList.{PolicyList};

/// There are no differences exactly where the second list allows every valid check that the first allows.
pub fn no_difference_is_inclusion()
    ensures { (first second : PolicyList) (differences : Items Difference)
        → AreDifferences first second differences → (differences ≡ []) ↔ Subsumes first second }
{}

/// The directives of differences are exactly those under which the first list allows a valid check that the
/// second doesn't. So all answers on the same lists have the same directives.
pub fn each_directive_that_differs_is_named()
    ensures named { (first second : PolicyList) (differences : Items Difference) (directive : Name)
        → AreDifferences first second differences → Contains (directives_of differences) directive
        ↔ ((asked : Check) × DiffersAmong (directive ∷ []) first second asked) }
    ensures same { (first second : PolicyList) (one other : Items Difference)
        → AreDifferences first second one → AreDifferences first second other
        → directives_of one ≡ directives_of other }
{}
