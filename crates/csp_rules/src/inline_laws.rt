//! Laws of inline code and style, each the contract of a function with no body.
ghost use Rattle.std.specs.Prelude.{◌≡◌, ℕ, false, List as Items, Contains, IsTrue};
ghost use Rattle.csp_model.specs.DecideInline as spec;
ghost use Rattle.csp_model.specs.Inline.{is_element_kind, is_script_kind};
ghost use Rattle.csp_model.specs.Tokens.{HasKeyword};
ghost use Rattle.csp_rules.specs.Types.{Digests, InlineKind, Policy, Hash, Source};
ghost use Rattle.csp_model.specs.declared.source.Keyword.TheVariants.{StrictDynamic};
ghost use Rattle.csp_model.specs.declared.source.Source.TheVariants as source;

/// `'unsafe-inline'` is void beside a nonce or a hash, and for code beside `'strict-dynamic'` (Content
/// Security Policy Level 3, section 6.7.3.2).
pub fn unsafe_inline_is_void_beside_these()
    ensures nonce { (kind : InlineKind) (sources : Items Source) (value : Items ℕ)
        → Contains sources (source.Nonce value) → spec.allows_all_inline kind sources ≡ false }
    ensures hash { (kind : InlineKind) (sources : Items Source) (hash : Hash)
        → Contains sources (source.Digest hash) → spec.allows_all_inline kind sources ≡ false }
    ensures dynamic { (kind : InlineKind) (sources : Items Source) → IsTrue (is_script_kind kind)
        → HasKeyword StrictDynamic sources → spec.allows_all_inline kind sources ≡ false }
{}

/// A nonce makes no difference to attributes and navigations.
pub fn a_nonce_counts_for_elements_alone()
    ensures { (p : Policy) (kind : InlineKind) (first second : Items ℕ) (digests : Digests)
        → is_element_kind kind ≡ false
        → spec.inline_allows p kind first digests ≡ spec.inline_allows p kind second digests }
{}
