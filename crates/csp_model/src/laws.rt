//! Laws of the definitions, each the contract of a function with no body.
ghost use Rattle.std.specs.Prelude.{◌≡◌, ◌↔◌, ◌&&◌, not, ℕ, Bool, List, [], ◌∷◌, ◌++◌, All, Any, IsTrue, IsPermutation, Option, Some, option_and_then, slice_get};
ghost use Rattle.std.specs.Option.{option_map};
ghost use Rattle.csp_model.specs.DecideEnds.{is_host_under};
ghost use Rattle.csp_model.specs.DecideEquality.{same_host, same_port, same_algorithm, same_hash, same_keyword};
ghost use Rattle.csp_model.specs.DecideMatching.{matches, list_matches};
ghost use Rattle.csp_model.specs.DecideNonces.{is_nonceable, element_nonce};
ghost use Rattle.csp_model.specs.DecideTokens.{has_keyword, nonce_matches, integrity_matches, digests_match};
ghost use Rattle.csp_model.specs.Governing.{Governor, governor, governing_place};
ghost use Rattle.csp_model.specs.Inclusion.{Subsumes};
ghost use Rattle.csp_model.specs.Inline.{IsNonceable, IsElementNonce};
ghost use Rattle.csp_model.specs.Laws.{EnforcedAllow, IsRefusal};
ghost use Rattle.csp_model.specs.Matching.{IsHostUnder, Matches, ListMatches};
ghost use Rattle.csp_model.specs.Policies.{firsts};
ghost use Rattle.csp_model.specs.Tokens.{HasKeyword, NonceMatches, IntegrityMatches, DigestsMatch};
ghost use Rattle.csp_model.specs.Validity.{IsValidCheck};
ghost use Rattle.csp_model.specs.DecideVerdict.{allows};
ghost use Rattle.csp_model.specs.Verdict.{Allows, allows_all, items_from, items_of, list_allows, shown_items, verdict_of};
ghost use Rattle.csp_model.specs.Types.{Check, Digests, Name, Directive, Policy, PolicyList, Algorithm, Hash};
ghost use Rattle.csp_model.specs.Types.{Keyword, Source, Host, Origin, Url, Item};
ghost use Rattle.csp_model.specs.declared.policy.Disposition.TheVariants.{Report};

/// Two hosts, ports, algorithms, hashes or keywords are one by their test exactly where they are equal.
pub fn tests_of_equality_decide_it()
    ensures host { (a b : Host) → (IsTrue (same_host a b) ↔ (a ≡ b)) }
    ensures port { (a b : Option ℕ) → (IsTrue (same_port a b) ↔ (a ≡ b)) }
    ensures algorithm { (a b : Algorithm) → (IsTrue (same_algorithm a b) ↔ (a ≡ b)) }
    ensures hash { (a b : Hash) → (IsTrue (same_hash a b) ↔ (a ≡ b)) }
    ensures keyword { (a b : Keyword) → (IsTrue (same_keyword a b) ↔ (a ≡ b)) }
{}

/// A host lies under a suffix, and a source expression, and a source list, matches a URL, by its test exactly
/// where it does so by the standard's relation.
pub fn tests_of_matching_decide_it()
    ensures under { (host : Host) (suffix : List ℕ)
        → (IsTrue (is_host_under host suffix) ↔ IsHostUnder host suffix) }
    ensures source { (s : Source) (self : Origin) (there : Url) (redirected : Bool)
        → (IsTrue (matches s self there redirected) ↔ Matches s self there redirected) }
    ensures list { (sources : List Source) (self : Origin) (there : Url) (redirected : Bool)
        → (IsTrue (list_matches sources self there redirected) ↔ ListMatches sources self there redirected) }
{}

/// So it is with keywords, nonces, integrity metadata and digests.
pub fn tests_of_tokens_decide_them()
    ensures keyword { (word : Keyword) (sources : List Source)
        → (IsTrue (has_keyword word sources) ↔ HasKeyword word sources) }
    ensures nonce { (nonce : List ℕ) (sources : List Source)
        → (IsTrue (nonce_matches nonce sources) ↔ NonceMatches nonce sources) }
    ensures integrity { (integrity : List Hash) (sources : List Source)
        → (IsTrue (integrity_matches integrity sources) ↔ IntegrityMatches integrity sources) }
    ensures digests { (digests : Digests) (sources : List Source)
        → (IsTrue (digests_match digests sources) ↔ DigestsMatch digests sources) }
{}

/// So it is with an element's nonce.
pub fn an_element_has_its_nonce()
    ensures nonceable { (tag : List ℕ) (attributes : List (List ℕ × List ℕ)) (duplicate : Bool)
        → (IsTrue (is_nonceable tag attributes duplicate) ↔ IsNonceable tag attributes duplicate) }
    ensures nonce { (tag : List ℕ) (attributes : List (List ℕ × List ℕ)) (duplicate : Bool)
        → IsElementNonce tag attributes duplicate (element_nonce tag attributes duplicate) }
{}

/// A policy allows a check by the test exactly where it does so by the standard's relation.
pub fn what_is_allowed_is_decided()
    ensures { (p : Policy) (asked : Check) → (IsTrue (allows p asked) ↔ Allows p asked) }
{}

/// A list allows a check exactly where each of its enforced policies does.
pub fn a_list_allows_what_its_enforced_policies_allow()
    ensures { (list : PolicyList) (asked : Check)
        → (IsTrue (list_allows list asked) ↔ EnforcedAllow list asked) }
{}

/// The directive that governs stands at the place that is told of it.
pub fn what_governs_stands_at_its_place()
    ensures { (p : Policy) (effective : Name)
        → option_map (λ (g : Governor). g.directive) (governor p effective)
        ≡ option_and_then (slice_get p.directives) (governing_place p effective) }
{}

/// A verdict is blocked exactly where the list doesn't allow the request.
pub fn a_verdict_blocks_what_the_list_refuses()
    ensures { (list : PolicyList) (checks : List Check)
        → (verdict_of list checks).blocked ≡ not (allows_all list checks) }
{}

/// The items of a check speak of policies that don't allow it, each by its number. Each such policy has an
/// item; of a base URL those behind the first enforced one aren't shown.
pub fn items_are_the_policies_that_refuse()
    ensures each { (list : PolicyList) (asked : Check) → All (IsRefusal list asked) (items_of list asked) }
    ensures shown { (list : PolicyList) (asked : Check)
        → items_of list asked ≡ shown_items asked (items_from 0 list.policies asked) }
    ensures all { (list : PolicyList) (asked : Check) (number : ℕ) (p : Policy)
        → slice_get list.policies number ≡ Some p → ¬ Allows p asked
        → Any (λ (item : Item). item.policy ≡ number) (items_from 0 list.policies asked) }
{}

/// Policies that are added to a list can only forbid more: two lists joined allow what both of them allow.
pub fn joined_lists_allow_what_both_allow()
    ensures { (first second : PolicyList) (asked : Check)
        → list_allows (record { policies = first.policies ++ second.policies }) asked
        ≡ (list_allows first asked && list_allows second asked) }
{}

/// A policy that only reports changes nothing of what is allowed, wherever it stands.
pub fn a_report_only_policy_forbids_nothing()
    ensures { (front back : List Policy) (p : Policy) (asked : Check) → p.disposition ≡ Report
        → list_allows (record { policies = front ++ p ∷ back }) asked
        ≡ list_allows (record { policies = front ++ back }) asked }
{}

/// The order of policies makes no difference to what is allowed.
pub fn order_changes_nothing()
    ensures { (first second : PolicyList) (asked : Check) → IsPermutation first.policies second.policies
        → list_allows first asked ≡ list_allows second asked }
{}

/// Every list is at least as strict as itself.
pub fn subsumption_is_reflexive()
    ensures { (list : PolicyList) → Subsumes list list }
{}

/// A list is at least as strict as one that has fewer of its policies.
pub fn more_policies_are_stricter()
    ensures { (first second : PolicyList)
        → Subsumes (record { policies = first.policies ++ second.policies }) first }
{}

/// A list that is at least as strict as a second, which is so to a third, is so to the third.
pub fn subsumption_is_transitive()
    ensures { (first second third : PolicyList)
        → Subsumes first second → Subsumes second third → Subsumes first third }
{}

/// A list that is at least as strict as another for each check is so for each request.
pub fn subsumption_holds_of_requests()
    ensures { (first second : PolicyList) → Subsumes first second → (checks : List Check)
        → All IsValidCheck checks → IsTrue (allows_all first checks) → IsTrue (allows_all second checks) }
{}

/// The first directive of a name counts (Content Security Policy Level 3, section 2.2.1): a further one of a
/// name that stands before it changes nothing.
pub fn a_repeated_directive_changes_nothing()
    ensures { (front back : List Directive) (e : Directive)
        → Any (λ (d : Directive). d.name ≡ e.name) front
        → firsts (front ++ e ∷ back) ≡ firsts (front ++ back) }
{}
