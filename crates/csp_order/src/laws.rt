//! Laws of relations, each the contract of a function with no body.
ghost use Rattle.std.specs.Prelude.{◌≡◌, ◌↔◌, All, IsTrue, List};
ghost use Rattle.csp_model.specs.declared.policy.PolicyList.{PolicyList};
ghost use Rattle.csp_order.specs.Answers.{answers};
ghost use Rattle.csp_order.specs.Relations.{Includes, IsOrder, is_yes, pair_of};
ghost use Rattle.csp_order.specs.declared.relation.Relation.{Relation};

/// Two orderings of the same lists answer the same for each pair: that a proof shows it, that a chain of
/// earlier proofs does, or no. It is a yes exactly where the second list allows all that the first allows.
pub fn an_ordering_has_one_answer()
    ensures same { (lists : List PolicyList) (one other : List Relation)
        → IsOrder lists one → IsOrder lists other → answers one ≡ answers other }
    ensures inclusion { (lists : List PolicyList) (relations : List Relation) → IsOrder lists relations
        → All (λ (r : Relation). IsTrue (is_yes r.because) ↔ Includes lists (pair_of r)) relations }
{}
