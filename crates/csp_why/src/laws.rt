//! Laws of reasons, each the contract of a function with no body.
ghost use Rattle.std.specs.Prelude.{◌≡◌, ◌⊎◌, ℕ, IsTrue, List as Items, All, Some, true};
ghost use Rattle.csp_model.specs.DecideVerdict.{allows};
ghost use Rattle.csp_model.specs.Tokens.{digest_by};
ghost use Rattle.csp_model.specs.declared.check.Check.{Check};
ghost use Rattle.csp_model.specs.declared.check.Check.TheVariants as check;
ghost use Rattle.csp_model.specs.declared.check.Digests.{Digests};
ghost use Rattle.csp_model.specs.declared.check.InlineKind.{InlineKind};
ghost use Rattle.csp_model.specs.declared.name.Name.{Name};
ghost use Rattle.csp_model.specs.declared.policy.Policy.{Policy};
ghost use Rattle.csp_model.specs.declared.source.Algorithm.{Algorithm};
ghost use Rattle.csp_model.specs.declared.url.Url.{Url};
ghost use Rattle.csp_verdict.specs.Algorithms.{policy_names};
ghost use Rattle.csp_why.specs.Laws.{alone, mended_directive, with_changed};
ghost use Rattle.csp_why.specs.Laws.{IsAt, moved, with_source};
ghost use Rattle.csp_why.specs.Missing.{missing_url, source_of};
ghost use Rattle.csp_why.specs.Reasons.{reason, is_allowing};
ghost use Rattle.csp_why.specs.declared.reason.Allowance.{Allowance};
ghost use Rattle.csp_why.specs.declared.reason.Near.{Near};
ghost use Rattle.csp_why.specs.declared.reason.Reason.TheVariants.{Allows, Blocks};

/// A reason tells that the policy allows the check exactly where the policy allows it.
#[tactic(auto, using(crate::proofs::Decided::reason_decided))]
pub fn a_reason_tells_what_is_allowed()
    ensures { (p : Policy) (asked : Check) → is_allowing (reason p asked) ≡ allows p asked }
{}

/// The token that is told allows by itself: so does the policy whose governing directive has that token
/// alone, and what its rule needs beside it.
pub fn a_token_that_is_told_allows_alone()
    ensures { (p : Policy) (asked : Check) (name : Name) (told : Allowance)
        → reason p asked ≡ Allows name told
        → allows (with_changed name (alone asked told) p) asked ≡ true }
{}

/// A near token allows once what its word names is mended in the governing directive: a part of a source is
/// changed so that it fits, `'unsafe-hashes'` is added, or all that takes the token's place is taken out.
pub fn a_near_token_allows_where_its_word_is_mended()
    ensures { (p : Policy) (asked : Check) (name : Name) (near : Items Near)
        → reason p asked ≡ Blocks name near
        → All (λ n. allows (with_changed name (mended_directive p.origin asked n) p) asked ≡ true) near }
{}

/// Where the source of a URL is missing, the policy with it in the directive that blocks allows the check.
///
/// Of the checks that differ from this one by their URL and redirects alone it allows no other than before,
/// but for those whose URL has the scheme, or one that it stands for, the host and the port of this one's.
pub fn a_missing_source_allows_its_own_alone()
    ensures allows { (p : Policy) (asked : Check) (name : Name) (near : Items Near) (there : Url)
        → reason p asked ≡ Blocks name near → missing_url p asked (Blocks name near) ≡ Some there
        → allows (with_changed name (with_source (source_of there)) p) asked ≡ true }
    ensures no_more { (p : Policy) (asked : Check) (name : Name) (near : Items Near) (there other : Url)
        (redirects : ℕ)
        → reason p asked ≡ Blocks name near → missing_url p asked (Blocks name near) ≡ Some there
        → allows (with_changed name (with_source (source_of there)) p) (moved other redirects asked) ≡ true
        → (allows p (moved other redirects asked) ≡ true) ⊎ IsAt there other }
{}

/// The reason for inline code or style rests on those digests alone whose algorithms a hash-source of the
/// policy names.
pub fn only_named_algorithms_count()
    ensures { (p : Policy) (kind : InlineKind) (nonce : Items ℕ) (first second : Digests)
        → ((x : Algorithm) → IsTrue (policy_names x p) → digest_by x first ≡ digest_by x second)
        → reason p (check.Inline kind nonce first) ≡ reason p (check.Inline kind nonce second) }
{}
