//! Words of source lists by names: nonces, pairs of integrity metadata and digests.
ghost use Rattle.std.specs.Prelude.{◌≡◌, ◌==◌, ℕ, IfOk, List as Items, Some, length};
ghost use Rattle.std.specs.BTreeSet.{contains_by};
ghost use Rattle.std.specs.List.{list_any};
ghost use Rattle.std.specs.Ordering.{nat_cmp};
ghost use Rattle.csp_facts.specs.declared.atom.Atom.{Atom as AtomValue};
ghost use Rattle.csp_model.specs.declared.source.Hash.{Hash as HashValue};
ghost use Rattle.csp_formula.specs.Compiled.{integrity_sentence};
ghost use Rattle.csp_answer.specs.Answers.{IsIntegrityThere, integrity_in};
ghost use Rattle.csp_answer.specs.Asking as spec;
ghost use Rattle.csp_answer.specs.Naming.{ArePairs};

use crate::answer::Integrity;
use crate::conjunction::Conjunction;
use crate::listed::NamedList;
use crate::naming::{PairNames, SourceNames};
use csp_branch::Names;
use csp_branch::name_laws::an_atom_has_one_name;
use csp_model::{Memory, Source};
use std::alloc::Global;
use std::collections::BTreeSet;

// What a source may ask for that isn't a URL.
#[derive(Clone, Copy)]
pub(crate) enum WordKind {
    Nonce,
    Pair,
    Digest,
}

// For each word of this kind the conjunction of its name alone.
pub(crate) fn word_conjunctions(
    alloc: Global,
    list: NamedList,
    word: WordKind,
) -> Result<Vec<Conjunction>, Memory>
    ensures { IfOk result (λ made. (atoms : Items AtomValue) → spec.IsListNamed atoms list.entry
        → spec.AmountTo atoms (spec.word_sentence word list.entry.sources.now) made.items) }
{
    let mut conjunctions = Vec::new(alloc);
    for name in &word_names(alloc, list, word)? {
        conjunctions.push(Conjunction::of(*name))?;
    }
    Ok(conjunctions)
}

// The names of the list's words of this kind, in its order.
fn word_names(alloc: Global, list: NamedList, word: WordKind) -> Result<Vec<usize>, Memory>
    ensures { IfOk result (λ made. made.items
        ≡ spec.word_names word list.entry.sources.now list.entry.names.now) }
{
    let pairs = list.sources.as_slice().iter().zip(list.names);
    let names = pairs
        .filter_map(|(source, names)| word_name(word, source, *names))
        .collect(alloc)?;
    Ok(names)
}

// The name of the word of a source, if it has one of this kind.
fn word_name(word: WordKind, source: &Source, names: SourceNames) -> Option<usize>
    ensures { result ≡ spec.word_name word source.now names }
{
    match (word, source) {
        (WordKind::Nonce, Source::Nonce { .. }) => names.lead,
        (WordKind::Pair, Source::Digest { .. }) => names.lead,
        (WordKind::Digest, Source::Digest { .. }) => names.rest,
        _ => None,
    }
}

// The rule on integrity metadata for a list, where these are the names of the vocabulary's pairs.
pub(crate) fn integrity_of(
    alloc: Global,
    names: &Names,
    pairs: &PairNames,
    list: NamedList,
) -> Result<Integrity, Memory>
    requires { spec.IsListNamed names.now list }
    ensures said { IfOk result (λ made. (hashes : Items HashValue)
        → ArePairs names.now hashes pairs.now
        → integrity_in names.now (Some made) ≡ integrity_sentence hashes list.entry.sources.now) }
    ensures there { IfOk result (λ made. (hashes : Items HashValue)
        → ArePairs names.now hashes pairs.now → IsIntegrityThere (length names.now) made) }
{
    names.are_in_order();
    an_atom_has_one_name();
    let own = word_names(alloc, list, WordKind::Pair)?;
    let others = names_but(alloc, &pairs.pairs, &own)?;
    Ok(Integrity {
        outside: pairs.outside,
        others,
        own,
    })
}

// The names that aren't among others.
fn names_but(alloc: Global, names: &[usize], others: &[usize]) -> Result<Vec<usize>, Memory>
    ensures { IfOk result (λ made. made.items ≡ spec.names_but names.now others.now) }
{
    let others = set_of(alloc, others)?;
    let mut left = Vec::new(alloc);
    for name in names {
        if !others.contains(name) {
            left.push(*name)?;
        }
    }
    Ok(left)
}

// The names as a set.
fn set_of(alloc: Global, names: &[usize]) -> Result<BTreeSet<usize>, Memory>
    ensures { IfOk result (λ set. (name : ℕ)
        → contains_by (nat_cmp name) set ≡ list_any (λ m. name == m) names.now) }
{
    let mut set = BTreeSet::new(alloc);
    for name in names {
        set.insert(*name)?;
    }
    Ok(set)
}
