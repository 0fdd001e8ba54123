//! Laws of the definitions, each the contract of a function with no body.
ghost use Rattle.std.specs.Prelude.{◌≡◌, ℕ, List};
ghost use Rattle.csp_model.specs.DecideTokens.{digests_match};
ghost use Rattle.csp_token.specs.Types.{Digests, Source, Algorithms};
ghost use Rattle.csp_token.specs.Algorithms.{Covers};
ghost use Rattle.csp_token.specs.Digests.{AgreeWhereNamed, digests_for, digests_of};

/// Whether digests match a source list rests on those alone whose algorithms the list's hash-sources name. So
/// the digests by those algorithms match where all three would.
pub fn only_named_algorithms_count()
    ensures agreeing { (sources : List Source) (first second : Digests) → AgreeWhereNamed sources first second
        → digests_match first sources ≡ digests_match second sources }
    ensures wanted { (source : List ℕ) (wanted : Algorithms) (sources : List Source) → Covers wanted sources
        → digests_match (digests_for source wanted) sources ≡ digests_match (digests_of source) sources }
{}
