//! Laws of lists, each the contract of a function with no body of its own.
ghost use Rattle.std.specs.Prelude.{◌≡◌, ℕ, List as Items};
ghost use Rattle.csp_model.specs.DecideMatching.{is_domain_host};
ghost use Rattle.csp_model.specs.Policies.{IsReadable};
ghost use Rattle.csp_model.specs.Validity.{IsValidCheck};
ghost use Rattle.csp_model.specs.Verdict.{list_allows};
ghost use Rattle.csp_model.specs.declared.check.Check.{Check as CheckValue};
ghost use Rattle.csp_model.specs.declared.check.Digests.{Digests as DigestsValue};
ghost use Rattle.csp_model.specs.declared.policy.PolicyList.{PolicyList as PolicyListValue};
ghost use Rattle.csp_model.specs.declared.source.Hash.{Hash as HashValue};
ghost use Rattle.csp_model.specs.declared.url.Host.{Host as HostValue};
ghost use Rattle.csp_facts.specs.Shapes.{HasShape};
ghost use Rattle.csp_facts.specs.declared.shape.Shape.{Shape as ShapeValue};
ghost use Rattle.csp_formula.specs.Strangers.{AgreeOn, HaveHashesOf, NoneNames};
ghost use Rattle.csp_formula.specs.Strangers.{names_digests, names_host, names_nonce};
ghost use Rattle.csp_formula.specs.Strangers.{with_digests, with_host, with_nonce};

use crate::laws::a_formula_is_what_the_policy_allows;

/// Two valid checks of a shape on which each atom of what the policies say of the shape has the same value
/// are allowed alike by the list. Each policy is as reading makes it, and the vocabulary has its
/// hash-sources.
pub fn checks_on_which_the_atoms_agree_are_allowed_alike()
    ensures { (list : PolicyListValue) (kind : ShapeValue) (hashes : Items HashValue)
        (one other : CheckValue)
        → IsReadable list → HaveHashesOf hashes list → IsValidCheck one → IsValidCheck other
        → HasShape one kind → HasShape other kind → AgreeOn list kind hashes one other
        → list_allows list one ≡ list_allows list other }
{
    a_formula_is_what_the_policy_allows();
}

/// Of all hosts that a list doesn't name for a shape one stands for all: two checks that differ by such hosts
/// alone are allowed alike, so they have the same scheme, port, path and number of redirects. Both hosts are
/// domains, or both are addresses.
pub fn hosts_that_a_list_does_not_name_are_alike()
    ensures { (list : PolicyListValue) (kind : ShapeValue) (hashes : Items HashValue)
        (asked : CheckValue) (one other : HostValue)
        → IsReadable list → HaveHashesOf hashes list → is_domain_host one ≡ is_domain_host other
        → NoneNames (names_host one) list kind hashes
        → NoneNames (names_host other) list kind hashes
        → IsValidCheck (with_host one asked) → IsValidCheck (with_host other asked)
        → HasShape (with_host one asked) kind
        → list_allows list (with_host one asked) ≡ list_allows list (with_host other asked) }
{
    a_formula_is_what_the_policy_allows();
}

/// Of all nonces that a list doesn't name for a shape one stands for all, as an empty one does: two checks
/// that differ by such nonces alone are allowed alike.
pub fn nonces_that_a_list_does_not_name_are_alike()
    ensures { (list : PolicyListValue) (kind : ShapeValue) (hashes : Items HashValue)
        (asked : CheckValue) (one other : Items ℕ)
        → IsReadable list → HaveHashesOf hashes list
        → NoneNames (names_nonce one) list kind hashes
        → NoneNames (names_nonce other) list kind hashes
        → IsValidCheck (with_nonce one asked) → IsValidCheck (with_nonce other asked)
        → HasShape (with_nonce one asked) kind
        → list_allows list (with_nonce one asked) ≡ list_allows list (with_nonce other asked) }
{
    a_formula_is_what_the_policy_allows();
}

/// Of all texts whose digests a list doesn't name for a shape one stands for all: two checks of inline code or
/// style that differ by such digests alone are allowed alike.
pub fn digests_that_a_list_does_not_name_are_alike()
    ensures { (list : PolicyListValue) (kind : ShapeValue) (hashes : Items HashValue)
        (asked : CheckValue) (one other : DigestsValue)
        → IsReadable list → HaveHashesOf hashes list
        → NoneNames (names_digests one) list kind hashes
        → NoneNames (names_digests other) list kind hashes
        → IsValidCheck (with_digests one asked) → IsValidCheck (with_digests other asked)
        → HasShape (with_digests one asked) kind
        → list_allows list (with_digests one asked) ≡ list_allows list (with_digests other asked) }
{
    a_formula_is_what_the_policy_allows();
}
