//! Laws of verdicts, each the contract of a function with no body.
ghost use Rattle.std.specs.Prelude.{◌≡◌, ◌∷◌, [], ℕ, List as Items};
ghost use Rattle.std.specs.List.{filter};
ghost use Rattle.csp_model.specs.Verdict.{verdict_of, violations_of};
ghost use Rattle.csp_model.specs.declared.check.Check.TheVariants as check;
ghost use Rattle.csp_model.specs.declared.check.Digests.{Digests};
ghost use Rattle.csp_model.specs.declared.check.InlineKind.{InlineKind};
ghost use Rattle.csp_model.specs.declared.policy.PolicyList.{PolicyList};
ghost use Rattle.csp_model.specs.declared.verdict.Described.{Described};
ghost use Rattle.csp_token.specs.Digests.{digests_for, digests_of};
ghost use Rattle.csp_verdict.specs.Algorithms.{AgreeWhereNamed, algorithms_of, inline_request};
ghost use Rattle.csp_verdict.specs.Reported.{AreOf, makes_report};

/// The verdict on inline code or style and its violations rest on those digests alone whose algorithms a
/// hash-source of the list's policies names. So they are the same by the digests of these algorithms as by
/// all three.
pub fn only_named_algorithms_count()
    ensures agreeing { (list : PolicyList) (kind : InlineKind) (nonce : Items ℕ) (first second : Digests)
        → AgreeWhereNamed list first second
        → verdict_of list (check.Inline kind nonce first ∷ [])
        ≡ verdict_of list (check.Inline kind nonce second ∷ []) }
    ensures wanted { (list : PolicyList) (kind : InlineKind) (nonce : Items ℕ) (source : Items ℕ)
        → verdict_of list (check.Inline kind nonce (digests_for source (algorithms_of list)) ∷ [])
        ≡ verdict_of list (check.Inline kind nonce (digests_of source) ∷ []) }
    ensures violations { (list : PolicyList) (kind : InlineKind) (nonce : Items ℕ) (source : Items ℕ)
        (blocked_uri sample : Items ℕ)
        → violations_of list
        (inline_request kind nonce (digests_for source (algorithms_of list)) blocked_uri sample)
        ≡ violations_of list (inline_request kind nonce (digests_of source) blocked_uri sample) }
{}

/// The violations of a request are those of its verdict's items, one for each and in their order, but without
/// the items of a sandbox (Content Security Policy Level 3, sections 5 and 6.3.2).
pub fn violations_are_of_the_verdicts_items()
    ensures { (list : PolicyList) (described : Described)
        → AreOf list (filter makes_report (verdict_of list described.checks).items)
        (violations_of list described) }
{}
