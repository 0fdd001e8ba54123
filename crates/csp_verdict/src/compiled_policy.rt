//! A policy made ready for many checks.
ghost use Rattle.std.specs.Prelude.{◌≡◌, IfOk, IfSome, map, take, option_copied, slice_get, Some};
ghost use Rattle.csp_match.specs.Shown.{shown};
ghost use Rattle.csp_model.specs.DecideNavigation.{capability_allows};
ghost use Rattle.csp_model.specs.Governing as spec;
ghost use Rattle.csp_model.specs.Names as names_spec;
ghost use Rattle.csp_model.specs.Policies as policies;
ghost use Rattle.csp_verdict.specs.Entries as entries;
ghost use Rattle.csp_verdict.specs.Governed.{governed_allows};

use crate::compiled_directive::CompiledDirective;
use crate::item::{Judge, effective_name};
use crate::violation::has_sample;
use csp_match::{Candidates, names};
use csp_model::{Capability, Check, Duplicate, Item, Keyword, Memory, Name, Policy, Text};
use csp_policy::policy_text;
use csp_rules::{
    capability_allows, decided_by_tokens, sources_allow_eval, sources_allow_inline,
    sources_allow_wasm, worker_start_allows,
};
use csp_token::Tokens;
use std::alloc::{AllocError, Global};
use std::marker::Model;

// What a policy has for the checks that ask for one directive, and for those that this directive governs.
#[derive(Drop)]
struct Entry<'a> {
    // The name of what governs where a check asks for this directive.
    governing: Option<Name>,
    // The policy's first directive of this name, if it governs anything.
    own: Option<CompiledDirective<'a>>,
}

// A policy, and beside it what it has for each name, what it leaves to a sandbox, and its text where it was
// printed ahead.
#[derive(Drop)]
pub(crate) struct CompiledPolicy<'a> {
    policy: &'a Policy,
    // One for each name, in the order of the names.
    entries: Vec<Entry<'a>>,
    // Whether it allows each capability, in the order of the capabilities.
    capabilities: Vec<bool>,
    worker_start: bool,
    printed: Option<Text>,
}

impl<'a> Model for CompiledPolicy<'a> {
    ghost use Rattle.csp_model.specs.declared.policy.Policy.{Policy as PolicyValue};

    ghost Value = { PolicyValue };

    ghost view = { λ a. a.policy.now };

    ghost use Rattle.csp_verdict.specs.IsCompiled.{IsCompiled};

    ghost invariant = { IsCompiled };
}

impl<'a> CompiledPolicy<'a> {
    // Makes a policy ready, and prints it ahead where that is wanted.
    pub(crate) fn new(
        alloc: Global,
        policy: &'a Policy,
        is_printed: bool,
    ) -> Result<CompiledPolicy<'a>, Memory>
        ensures { IfOk result (λ made. made ≡ policy.now) }
    {
        let entries = entries_of(alloc, policy)?;
        let capabilities = allowed_capabilities(alloc, policy)?;
        let worker_start = worker_start_allows(policy);
        let printed = printed_where(alloc, policy, is_printed)?;
        Ok(CompiledPolicy {
            policy,
            entries,
            capabilities,
            worker_start,
            printed,
        })
    }

    // What governs a check that asks for the directive `effective`.
    pub(crate) fn governing(&self, effective: Name) -> Option<&CompiledDirective<'a>>
        ensures { option_copied result ≡ spec.governor self.now effective }
    {
        let name = self.entries[effective as usize].governing?;
        self.entries[name as usize].own.as_ref()
    }

    // Whether what governs a check allows it.
    fn governed_allows(&self, found: &CompiledDirective<'_>, check: &Check) -> bool
        ensures { result ≡ governed_allows self.now check.now found.now }
    {
        let origin = &self.policy.origin;
        match check {
            Check::Fetch {
                group,
                url,
                redirects,
                nonce,
                integrity,
                parser_inserted,
            } => {
                let rule = group.rule(found.name());
                match decided_by_tokens(rule, found.tokens(), nonce, integrity, *parser_inserted) {
                    Some(decided) => decided,
                    None => found.index().matches(origin, url, *redirects != 0),
                }
            }
            Check::Inline {
                kind,
                nonce,
                digests,
            } => sources_allow_inline(*kind, found.tokens(), nonce, digests),
            Check::Eval => sources_allow_eval(found.tokens()),
            Check::Wasm => sources_allow_wasm(found.tokens()),
            Check::Base { url } | Check::Ancestor { url } => {
                found.index().matches(origin, url, false)
            }
            Check::Form { url, redirects } => found.index().matches(origin, url, *redirects != 0),
            Check::OpaqueAncestor => false,
            Check::Capability { capability } => self.capabilities[*capability as usize],
            Check::WorkerStart => self.worker_start,
        }
    }
}

impl<'a> Judge for CompiledPolicy<'a> {
    ghost seen = { λ p. p };

    fn item_of(&self, number: u32, check: &Check) -> Option<Item> {
        let effective = effective_name(check);
        let found = self.governing(effective)?;
        if self.governed_allows(found, check) {
            return None;
        }
        Some(Item {
            policy: number,
            disposition: self.policy.disposition,
            effective,
            governing: found.name(),
        })
    }

    fn is_sampled(&self, check: &Check) -> bool {
        has_sample(check)
            && match self.governing(effective_name(check)) {
                Some(found) => found.tokens().has_keyword(Keyword::ReportSample),
                None => false,
            }
    }

    fn text(&self, alloc: Global) -> Result<Text, Memory> {
        match &self.printed {
            Some(text) => text.copy(alloc),
            None => policy_text(alloc, self.policy),
        }
    }
}

// The policy, printed where that is wanted.
fn printed_where(alloc: Global, policy: &Policy, is_printed: bool) -> Result<Option<Text>, Memory>
    ensures { IfOk result (λ printed. IfSome printed (λ text. text ≡ policies.policy_text policy.now)) }
{
    if is_printed {
        Ok(Some(policy_text(alloc, policy)?))
    } else {
        Ok(None)
    }
}

// What the policy has for each name.
fn entries_of<'a>(alloc: Global, policy: &'a Policy) -> Result<Vec<Entry<'a>>, Memory>
    ensures { IfOk result (λ made. made.items ≡ map (entries.entry_of policy.now) names_spec.names) }
{
    let candidates = Candidates::new(alloc, policy)?;
    let mut made = Vec::new(alloc);
    for name in names() {
        made.push(entry_of(alloc, &candidates, *name)?)?;
    }
    Ok(made)
}

fn entry_of<'a>(alloc: Global, candidates: &Candidates<'a>, name: Name) -> Result<Entry<'a>, Memory>
    ensures { IfOk result (λ made. made ≡ entries.entry_of candidates.now name) }
{
    match candidates.governor(name) {
        None => Ok(Entry {
            governing: None,
            own: None,
        }),
        Some(found) if found.name == name => Ok(Entry {
            governing: Some(name),
            own: Some(CompiledDirective::new(alloc, &found)?),
        }),
        Some(found) => Ok(Entry {
            governing: Some(found.name),
            own: None,
        }),
    }
}

// Whether the policy allows each capability, in the order of the capabilities.
fn allowed_capabilities(alloc: Global, policy: &Policy) -> Result<Vec<bool>, AllocError>
    ensures { IfOk result (λ made. made.items
        ≡ map (capability_allows policy.now) names_spec.capabilities) }
{
    Capability::ALL
        .iter()
        .map(|capability| capability_allows(policy, *capability))
        .collect(alloc)
}
