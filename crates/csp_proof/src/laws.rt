//! Laws of proofs and their texts, each the contract of a function with no body.
ghost use Rattle.std.specs.Prelude.{◌≡◌, ◌∷◌, [], List as Items, map, ℕ};
ghost use Rattle.std.specs.List.{range_with_len};
ghost use Rattle.csp_facts.specs.Numbers.{number, shape_count};
ghost use Rattle.csp_proof.specs.Pairs.{shapes};
ghost use Rattle.csp_proof.specs.WellFormed.{Cases, preorder};
ghost use Rattle.csp_model.specs.Inclusion.{Subsumes};
ghost use Rattle.csp_model.specs.Policies.{IsReadable};
ghost use Rattle.csp_model.specs.declared.policy.PolicyList.{PolicyList as PolicyListValue};
ghost use Rattle.csp_proof.specs.Accepts.{IsAccepted, cases_in};
ghost use Rattle.csp_proof.specs.Texts.{IsFirstBad, IsTextOf};
ghost use Rattle.csp_proof.specs.declared.proof.Proof.{Proof as ProofValue};

use csp_formula::laws::a_formula_is_what_the_policy_allows;

/// A text is that of at most one proof. A proof has one text, `specs/Spelling`'s.
pub fn a_text_is_of_one_proof()
    ensures { (first second : ProofValue) (text : Items ℕ)
        → IsTextOf first text → IsTextOf second text → first ≡ second }
{}

/// In each text one line at most is the first that can't stand.
pub fn one_line_is_the_first_that_cant_stand()
    ensures { (text : Items ℕ) (first second : ℕ)
        → IsFirstBad text first → IsFirstBad text second → first ≡ second }
{}

/// Where a proof is accepted, every valid check that the first list allows the second allows: finitely many
/// lines speak of all checks that a page can make. The lists are as reading makes them.
pub fn what_is_accepted_is_so()
    ensures { (first second : PolicyListValue) (proof : ProofValue)
        → IsReadable first → IsReadable second → IsAccepted first second proof → Subsumes first second }
{
    a_formula_is_what_the_policy_allows();
}

/// Nodes in preorder are the nodes of one tree of cases, by which the rules judge them.
pub fn nodes_in_preorder_are_one_tree()
    ensures { (cases : Cases) → cases_in (preorder cases) ≡ cases ∷ [] }
{}

/// The shapes are listed in the order of their numbers, from 0 to 188.
pub fn shapes_are_in_order()
    ensures { map number shapes ≡ range_with_len 0 shape_count }
{}
