//! Laws of decisions, each the contract of a function with no body.
ghost use Rattle.std.specs.Prelude.{◌≡◌, ◌↔◌, Bool, true, false, IfSome, codes};
ghost use Rattle.csp_model.specs.Inclusion.{Subsumes};
ghost use Rattle.csp_model.specs.declared.policy.Disposition.TheVariants.{Enforce};
ghost use Rattle.csp_model.specs.declared.policy.Policy.{Policy};
ghost use Rattle.csp_model.specs.declared.policy.PolicyList.{PolicyList};
ghost use Rattle.csp_embed.specs.Decisions.{IsDecision, alone, decision_text, enforced_list, Upholds};
ghost use Rattle.csp_embed.specs.declared.decision.Decision.{Decision};

use csp_model::laws::{joined_lists_allow_what_both_allow, what_is_allowed_is_decided};

/// Whatever is enforced on a response that is shown, every valid check that it allows the required policy
/// allows.
pub fn what_is_enforced_upholds_the_requirement()
    ensures { (allowed : Bool) (required : Policy) (response : PolicyList) (decision : Decision)
        → required.disposition ≡ Enforce → IsDecision allowed required response decision
        → IfSome (enforced_list response decision) (λ list. Upholds list required) }
{
    joined_lists_allow_what_both_allow();
    what_is_allowed_is_decided();
}

/// The required policy is added exactly where the response leaves it to the embedder. A response that doesn't is
/// served exactly where its own policies are at least as strict. So no two decisions on the same are printed by
/// different words.
pub fn a_decision_has_one_word()
    ensures added { (allowed : Bool) (required : Policy) (response : PolicyList) (decision : Decision)
        → IsDecision allowed required response decision
        → (decision_text decision ≡ codes "added") ↔ (allowed ≡ true) }
    ensures served { (allowed : Bool) (required : Policy) (response : PolicyList) (decision : Decision)
        → IsDecision allowed required response decision
        → (decision_text decision ≡ codes "served")
        ↔ ((allowed ≡ false) × Subsumes response (alone required)) }
    ensures same { (allowed : Bool) (required : Policy) (response : PolicyList) (one other : Decision)
        → IsDecision allowed required response one → IsDecision allowed required response other
        → decision_text one ≡ decision_text other }
{}
