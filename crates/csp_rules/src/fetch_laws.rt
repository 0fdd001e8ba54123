//! Laws of fetches, each the contract of a function with no body.
ghost use Rattle.std.specs.Prelude.{◌≡◌, ℕ, Bool, true, List as Items, Option, Some, IsTrue};
ghost use Rattle.csp_model.specs.DecideFetch as spec;
ghost use Rattle.csp_model.specs.DecideMatching.{matches, list_matches};
ghost use Rattle.csp_model.specs.DecideTokens.{nonce_matches};
ghost use Rattle.csp_model.specs.Fetch.{is_redirected};
ghost use Rattle.csp_model.specs.Governing.{Governor, governor};
ghost use Rattle.csp_model.specs.Names.{group_directive};
ghost use Rattle.csp_rules.specs.Types.{Group as GroupValue, Policy as PolicyValue, Hash as HashValue};
ghost use Rattle.csp_rules.specs.Types.{HostPart, PathPart, PortPart, Host, Origin, Scheme, Url as UrlValue};
ghost use Rattle.csp_model.specs.declared.check.Group.TheVariants as group;
ghost use Rattle.csp_model.specs.declared.name.Name.TheVariants.{ScriptSrcElem, StyleSrcElem};
ghost use Rattle.csp_model.specs.declared.source.Source.TheVariants as source;
ghost use Rattle.csp_model.specs.declared.url.Url.TheVariants as url;
ghost use Rattle.csp_rules.specs.Listed.{listed_allows};

/// Where `listed` is what the governing list says of a URL, or nothing governs, a policy allows a fetch by
/// `listed` exactly where it allows the fetch of that URL.
pub fn a_listed_fetch_is_that_of_its_url()
    ensures { (p : PolicyValue) (kind : GroupValue) (there : UrlValue) (redirects : ℕ) (nonce : Items ℕ)
        (integrity : Items HashValue) (parser_inserted listed : Bool)
        → ((g : Governor) → governor p (group_directive kind) ≡ Some g
        → listed ≡ list_matches g.directive.sources p.origin there (is_redirected redirects))
        → listed_allows p kind nonce integrity parser_inserted listed
        ≡ spec.fetch_allows p kind there redirects nonce integrity parser_inserted }
{}

/// A nonce that the governing list has allows a script or a style from every URL, whatever else the list
/// says.
pub fn a_nonce_allows_whatever_the_list_says()
    ensures script { (p : PolicyValue) (g : Governor) (there : UrlValue) (redirects : ℕ) (nonce : Items ℕ)
        (integrity : Items HashValue) (parser_inserted : Bool)
        → governor p ScriptSrcElem ≡ Some g → IsTrue (nonce_matches nonce g.directive.sources)
        → IsTrue (spec.fetch_allows p group.ScriptElem there redirects nonce integrity parser_inserted) }
    ensures style { (p : PolicyValue) (g : Governor) (there : UrlValue) (redirects : ℕ) (nonce : Items ℕ)
        (integrity : Items HashValue) (parser_inserted : Bool)
        → governor p StyleSrcElem ≡ Some g → IsTrue (nonce_matches nonce g.directive.sources)
        → IsTrue (spec.fetch_allows p group.StyleElem there redirects nonce integrity parser_inserted) }
{}

/// After a redirect no path is compared: neither the expression's nor the URL's makes a difference.
pub fn a_redirect_drops_the_path()
    ensures expression { (scheme : Option (Items ℕ)) (host : HostPart) (port : PortPart)
        (first second : PathPart) (self : Origin) (there : UrlValue)
        → matches (source.Hosted scheme host port first) self there true
        ≡ matches (source.Hosted scheme host port second) self there true }
    ensures url { (p : PolicyValue) (kind : GroupValue) (scheme : Scheme) (host : Host) (port : Option ℕ)
        (first second : Items (Items ℕ)) (redirects : ℕ) (nonce : Items ℕ) (integrity : Items HashValue)
        (parser_inserted : Bool) → IsTrue (is_redirected redirects)
        → spec.fetch_allows p kind (url.Hosted scheme host port first) redirects nonce integrity
        parser_inserted
        ≡ spec.fetch_allows p kind (url.Hosted scheme host port second) redirects nonce integrity
        parser_inserted }
{}
