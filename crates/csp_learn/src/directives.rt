//! The directives of a learnt policy.
ghost use Rattle.std.specs.Prelude.{◌≡◌, ◌++◌, [], IfOk, IsTrue, OnOk, map};
ghost use Rattle.std.specs.List.{cons_option, list_all};
ghost use Rattle.csp_model.specs.Ascii.{is_ascii_text};
ghost use Rattle.csp_model.specs.Reading.{source_of};
ghost use Rattle.csp_learn.specs.Needs.{AreAscii};
ghost use Rattle.csp_learn.specs.Policies as spec;

use crate::need::Need;
use csp_model::{
    Directive, Disposition, Duplicate, List, Memory, Name, Origin, Policy, Source, Text, name_text,
};
use csp_source::read_source;
use std::alloc::Global;
use std::collections::BTreeSet;

// The effective directives of fetches, in the order of their bytes.
const FETCH_DIRECTIVES: [Name; 10] = [
    Name::ConnectSrc,
    Name::FontSrc,
    Name::FrameSrc,
    Name::ImgSrc,
    Name::ManifestSrc,
    Name::MediaSrc,
    Name::ObjectSrc,
    Name::ScriptSrcElem,
    Name::StyleSrcElem,
    Name::WorkerSrc,
];

// The tokens that are needed of a directive, in order.
fn needed_tokens(
    alloc: Global,
    directive: &str,
    needs: &BTreeSet<Need>,
) -> Result<List<Text>, Memory>
    ensures { IfOk result (λ tokens. tokens ≡ spec.tokens_for directive.now needs.now.keys) }
{
    let mut tokens = List::new(alloc);
    for need in needs {
        if need.directive.as_str() == directive {
            tokens.push(need.token.copy(alloc)?)?;
        }
    }
    Ok(tokens)
}

// What each token stands for.
fn read_sources(alloc: Global, tokens: &[Text]) -> Result<List<Source>, Memory>
    requires { IsTrue (list_all is_ascii_text tokens.now) }
    ensures { IfOk result (λ sources. sources ≡ map source_of tokens.now) }
{
    let mut sources = List::new(alloc);
    for token in tokens {
        sources.push(read_source(alloc, token.as_str().as_bytes())?)?;
    }
    Ok(sources)
}

// The directive of this name and these tokens.
fn directive_of(alloc: Global, name: &str, tokens: List<Text>) -> Result<Directive, Memory>
    requires { IsTrue (list_all is_ascii_text tokens) }
    ensures { IfOk result (λ made. made ≡ spec.directive_of name.now tokens) }
{
    Ok(Directive {
        name: Text::new(alloc, name)?,
        sources: read_sources(alloc, tokens.as_slice())?,
        tokens,
    })
}

// `default-src 'none'`, which allows nothing.
fn default_none(alloc: Global) -> Result<Directive, Memory>
    ensures { IfOk result (λ made. made ≡ spec.default_none) }
{
    let mut tokens = List::new(alloc);
    tokens.push(Text::new(alloc, "'none'")?)?;
    directive_of(alloc, "default-src", tokens)
}

// Adds the directive of this name, where a token is needed of it.
fn add_needed(
    alloc: Global,
    directives: &mut List<Directive>,
    directive: Name,
    needs: &BTreeSet<Need>,
) -> Result<(), Memory>
    requires { AreAscii needs.now.keys }
    ensures { OnOk result (directives.new
        ≡ directives.old ++ cons_option (spec.directive_for needs.now.keys directive) []) }
{
    let name = name_text(directive);
    let tokens = needed_tokens(alloc, name, needs)?;
    if !tokens.is_empty() {
        directives.push(directive_of(alloc, name, tokens)?)?;
    }
    Ok(())
}

// The policy that allows what is needed, and no other fetch.
pub(crate) fn policy_for(
    alloc: Global,
    origin: &Origin,
    needs: &BTreeSet<Need>,
) -> Result<Policy, Memory>
    requires { AreAscii needs.now.keys }
    ensures { IfOk result (λ made. made ≡ spec.policy_for origin.now needs.now.keys) }
{
    let mut directives = List::new(alloc);
    directives.push(default_none(alloc)?)?;
    for directive in FETCH_DIRECTIVES {
        add_needed(alloc, &mut directives, directive, needs)?;
    }
    Ok(Policy {
        disposition: Disposition::Enforce,
        meta: false,
        origin: origin.copy(alloc)?,
        directives,
    })
}
