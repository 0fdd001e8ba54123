//! Proofs of earlier pairs that are proofs of others.
ghost use Rattle.std.specs.Prelude.{◌≡◌, ◌≤◌, All, IfOk, IfSome, IsTrue, length};
ghost use Rattle.csp_facts.specs.Vocabulary.{vocabulary_hashes};
ghost use Rattle.csp_compare.specs.Answers.{IsAnswer, IsPrinted};
ghost use Rattle.csp_model.specs.Policies.{IsReadable};
ghost use Rattle.csp_order.specs.Pairs.{IsPair};
ghost use Rattle.csp_order.specs.Relations.{HasProof, Serves, list_at};
ghost use Rattle.csp_order.specs.Within.{IsWithin};

use crate::copies::copy_proof;
use crate::pair::Pair;
use crate::relation::{Because, Relation};
use crate::within::is_within;
use csp_compare::{Answer, compare};
use csp_facts::{Vocabulary, vocabulary_of};
use csp_model::{Hash, List, Memory, PolicyList};
use csp_proof::Proof;
use csp_proof::laws::what_is_accepted_is_so;
use std::alloc::Global;

// Whether the second list of a pair allows all that the first allows, and why. The lists are compared where no
// proof of an earlier pair is found to be one of this pair too.
pub(crate) fn answer(
    alloc: Global,
    lists: &[PolicyList],
    earlier: &[Relation],
    pair: Pair,
) -> Result<Answer, Memory>
    requires readable { All IsReadable lists.now }
    requires proofs { All (HasProof lists.now) earlier.now }
    requires pair { IsPair (length lists.now) pair }
    ensures { IfOk result (IsAnswer (list_at lists.now pair.first) (list_at lists.now pair.second)) }
{
    let first = list_of(lists, pair.first);
    let second = list_of(lists, pair.second);
    for relation in earlier {
        if let Some(proof) = carry(alloc, lists, relation, pair)? {
            what_is_accepted_is_so();
            return Ok(Answer::Subsumed { proof });
        }
    }
    compare(alloc, first, second)
}

// A copy of the proof of an earlier pair, where it is found to be one of this pair too.
fn carry(
    alloc: Global,
    lists: &[PolicyList],
    earlier: &Relation,
    pair: Pair,
) -> Result<Option<Proof>, Memory>
    requires readable { All IsReadable lists.now }
    requires proof { HasProof lists.now earlier.now }
    requires pair { IsPair (length lists.now) pair }
    ensures { IfOk result (λ found. IfSome found
        (IsPrinted (list_at lists.now pair.first) (list_at lists.now pair.second))) }
{
    let Because::Proof { proof } = &earlier.because else {
        return Ok(None);
    };
    let proved = Pair {
        first: earlier.first,
        second: earlier.second,
    };
    if !serves(alloc, lists, proved, pair)? {
        return Ok(None);
    }
    Ok(Some(copy_proof(alloc, proof)?))
}

// Whether each proof of the one pair is found to be one of the other.
fn serves(alloc: Global, lists: &[PolicyList], one: Pair, other: Pair) -> Result<bool, Memory>
    requires readable { All IsReadable lists.now }
    requires one { IsPair (length lists.now) one }
    requires other { IsPair (length lists.now) other }
    ensures { IfOk result (λ serves. IsTrue serves → Serves lists.now one other) }
{
    if !are_within(lists, one, other) {
        return Ok(false);
    }
    let ours = hashes_of(alloc, lists, one)?;
    let theirs = hashes_of(alloc, lists, other)?;
    Ok(ours == theirs)
}

// Whether the pairs have a list in common, and of their other lists the other pair's refuses more, where it is
// the first, or allows more, where it is the second.
fn are_within(lists: &[PolicyList], one: Pair, other: Pair) -> bool
    requires readable { All IsReadable lists.now }
    requires one { IsPair (length lists.now) one }
    requires other { IsPair (length lists.now) other }
    ensures first { IsTrue result
        → IsWithin (list_at lists.now other.first) (list_at lists.now one.first) }
    ensures second { IsTrue result
        → IsWithin (list_at lists.now one.second) (list_at lists.now other.second) }
{
    if one.second == other.second {
        is_within(list_of(lists, other.first), list_of(lists, one.first))
    } else {
        one.first == other.first
            && is_within(list_of(lists, one.second), list_of(lists, other.second))
    }
}

// The hash-sources of a pair's lists. What a policy says of a script depends on all of them.
fn hashes_of(alloc: Global, lists: &[PolicyList], pair: Pair) -> Result<List<Hash>, Memory>
    requires readable { All IsReadable lists.now }
    requires pair { IsPair (length lists.now) pair }
    ensures { IfOk result (λ made.
        made ≡ vocabulary_hashes (list_at lists.now pair.first) (list_at lists.now pair.second)) }
{
    let first = list_of(lists, pair.first);
    let second = list_of(lists, pair.second);
    let Vocabulary { hashes } = vocabulary_of(alloc, first, second)?;
    Ok(hashes)
}

// The list of a number.
fn list_of(lists: &[PolicyList], number: u32) -> &PolicyList
    requires readable { All IsReadable lists.now }
    requires some { 1 ≤ number }
    requires few { number ≤ length lists.now }
    ensures list { result.now ≡ list_at lists.now number }
    ensures readable { IsReadable result.now }
{
    &lists[number as usize - 1]
}
