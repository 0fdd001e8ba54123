//! Laws of what `why` prints, each the contract of a function with no body.
ghost use Rattle.std.specs.Prelude.{◌≡◌, ◌∷◌, [], ◌++◌, ℕ, All, List, map};
ghost use Rattle.csp_model.specs.Verdict.{verdict_of};
ghost use Rattle.csp_model.specs.declared.check.Check.{Check};
ghost use Rattle.csp_model.specs.declared.check.Check.TheVariants as check;
ghost use Rattle.csp_model.specs.declared.check.InlineKind.{InlineKind};
ghost use Rattle.csp_model.specs.declared.name.Name.{Name};
ghost use Rattle.csp_model.specs.declared.policy.Disposition.TheVariants.{Report};
ghost use Rattle.csp_model.specs.declared.policy.Policy.{Policy};
ghost use Rattle.csp_model.specs.declared.policy.PolicyList.{PolicyList};
ghost use Rattle.csp_model.specs.declared.verdict.Described.{Described};
ghost use Rattle.csp_output.specs.Lines.{judgment};
ghost use Rattle.csp_output.specs.Explanations.{Explained, explanation, with_request};
ghost use Rattle.csp_output.specs.Explanations.{policy_text};
ghost use Rattle.csp_output.specs.WhyLaws.{IsExplained, told_below, would_block_line};
ghost use Rattle.csp_token.specs.Digests.{digests_for, digests_of};
ghost use Rattle.csp_verdict.specs.Algorithms.{algorithms_of};
ghost use Rattle.csp_why.specs.Reasons.{reason};
ghost use Rattle.csp_why.specs.declared.reason.Near.{Near};
ghost use Rattle.csp_why.specs.declared.reason.Reason.TheVariants.{Blocks};

/// `why` has the status that `judge` has for the same list and requests.
pub fn why_ends_as_judge_does()
    ensures { (list : PolicyList) (requests : List Described)
        → (explanation list requests).status ≡ (judgment list (map (λ (d : Described). d.checks) requests)).status }
{}

/// Each item of a verdict is explained: its check is told, and on this check stands the line that the item's
/// policy blocks it by the item's directive, or would block it.
pub fn each_item_is_explained()
    ensures { (list : PolicyList) (checks : List Check)
        → All (IsExplained list checks) (verdict_of list checks).items }
{}

/// Where a policy that only reports doesn't allow a check, what is told of it begins with the line that it
/// would block.
pub fn a_report_only_policy_is_never_told_to_block()
    ensures { (number : ℕ) (p : Policy) (asked : Check) (directive : Name) (near : List Near)
        → p.disposition ≡ Report → reason p asked ≡ Blocks directive near
        → policy_text number p asked
        ≡ would_block_line number directive ++ told_below p asked directive near }
{}

/// What is explained of inline code or style is the same by the digests of those algorithms alone that a
/// hash-source of the list's policies names.
pub fn only_named_algorithms_count()
    ensures { (e : Explained) (number : ℕ) (kind : InlineKind) (nonce source : List ℕ)
        → with_request e number (check.Inline kind nonce (digests_for source (algorithms_of e.list)) ∷ [])
        ≡ with_request e number (check.Inline kind nonce (digests_of source) ∷ []) }
{}
