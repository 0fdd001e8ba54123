//! A directive that governs, made ready for many checks.
ghost use Rattle.std.specs.Prelude.{◌≡◌, IfOk};
ghost use Rattle.csp_match.specs.Shown.{shown};

use csp_match::{Governor, Index};
use csp_model::{Directive, Memory, Name};
use csp_token::TokenIndex;
use std::alloc::Global;
use std::marker::Model;

// What finds the source expressions of a directive.
#[derive(Drop)]
struct Finders<'a> {
    index: Index<'a>,
    tokens: TokenIndex<'a>,
}

// A directive and the name under which it governs, seen as these two, with what finds its source expressions.
// That is large and stands apart, since a policy has room for a directive of each name and has few.
#[derive(Drop)]
pub(crate) struct CompiledDirective<'a> {
    name: Name,
    directive: &'a Directive,
    finders: Box<Finders<'a>>,
}

impl<'a> Model for CompiledDirective<'a> {
    ghost use Rattle.std.specs.Prelude.{◌≡◌};
    ghost use Rattle.csp_model.specs.Governing.{Governor as Governing};

    ghost Value = { Governing };

    ghost view = { λ a. record { name = a.name; directive = a.directive.now } };

    ghost invariant = { λ a. (a.finders.value.index ≡ a.directive.now.sources)
        × (a.finders.value.tokens ≡ a.directive.now.sources) };
}

impl<'a> CompiledDirective<'a> {
    // Makes what governs ready.
    pub(crate) fn new(alloc: Global, found: &Governor<'a>) -> Result<CompiledDirective<'a>, Memory>
        ensures { IfOk result (λ made. made ≡ shown found.now) }
    {
        let directive = found.directive;
        let index = Index::new(alloc, &directive.sources)?;
        let tokens = TokenIndex::new(alloc, &directive.sources)?;
        Ok(CompiledDirective {
            name: found.name,
            directive,
            finders: Box::new(alloc, Finders { index, tokens })?,
        })
    }

    // The name under which it governs.
    pub(crate) fn name(&self) -> Name
        ensures { result ≡ self.now.name }
    {
        self.name
    }

    // What finds the source expressions that match a URL.
    pub(crate) fn index(&self) -> &Index<'a>
        ensures { result.now ≡ self.now.directive.sources }
    {
        &self.finders.index
    }

    // What finds the keywords, nonces and hashes.
    pub(crate) fn tokens(&self) -> &TokenIndex<'a>
        ensures { result.now ≡ self.now.directive.sources }
    {
        &self.finders.tokens
    }
}
