//! What the literals of a branch decide of an answer.
ghost use Rattle.std.specs.Prelude.{◌≡◌, ◌⊎◌, ◌+◌, ◌<◌, ◌≤◌, ℕ, nat_le, true, All, Some, length, map};
ghost use Rattle.std.specs.List.{slice_index_or};
ghost use Rattle.csp_formula.specs.Sentences.{all_of as all_sentences, any_of as any_sentence};
ghost use Rattle.csp_formula.specs.Surely.{maybe_and, maybe_not, maybe_or, surely};
ghost use Rattle.csp_branch.specs.Numbers.{around_in};
ghost use Rattle.csp_answer.specs.Answers as spec;
ghost use Rattle.csp_answer.specs.Deciding.{Finds, ground_in};
ghost use Rattle.csp_answer.specs.declared.conjunction.Conjunction.{Conjunction as ConjunctionValue};

use crate::answer::{Integrity, ShapeAnswer};
use crate::conjunction::Conjunction;
use csp_branch::{Branch, Names, part_number};

/// What the literals of a branch decide of an answer. On a part where the branch has a place it looks only at
/// the conjunctions led by a name around the place or under it.
pub fn decide(branch: &Branch, answer: &ShapeAnswer) -> Option<bool>
    requires { spec.IsAnswer (length branch.now.atoms) answer.now }
    ensures { result ≡ surely branch.now.literals (spec.sentence_in branch.now.atoms answer.now) }
{
    let listed = disjunction(branch, answer.conjunctions());
    if listed == Some(true) {
        return listed;
    }
    match answer.integrity() {
        Some(rule) => or(listed, integrity_rule(branch, rule, &rule.own)),
        None => listed,
    }
}

/// What makes an answer true where it is true itself.
#[derive(Clone, Copy, Debug)]
pub enum Ground {
    /// The conjunction at this place among the answer's, counted from 0.
    Conjunction { place: usize },
    /// The rule on integrity metadata, by its own pair at this place alone, counted from 0.
    Pair { place: usize },
}

/// What the literals of a branch decide of this much of an answer: it is false where the answer doesn't have
/// it. Nothing else of the answer is looked at.
pub fn decided_by(branch: &Branch, answer: &ShapeAnswer, ground: Ground) -> Option<bool>
    requires { spec.IsAnswer (length branch.now.atoms) answer.now }
    ensures ground { result
        ≡ surely branch.now.literals (ground_in branch.now.atoms answer.now ground) }
    ensures answer { result ≡ Some true → surely branch.now.literals
        (spec.sentence_in branch.now.atoms answer.now) ≡ Some true }
{
    match ground {
        Ground::Conjunction { place } => match answer.conjunctions().get(place) {
            Some(conjunction) => all_of(branch, conjunction),
            None => Some(false),
        },
        Ground::Pair { place } => match answer.integrity() {
            Some(rule) => match rule.own.get(place) {
                Some(pair) => integrity_rule(branch, rule, &[*pair]),
                None => Some(false),
            },
            None => Some(false),
        },
    }
}

// What is decided of the disjunction.
fn disjunction(branch: &Branch, conjunctions: &[Conjunction]) -> Option<bool>
    requires there { All (spec.AreThere (length branch.now.atoms)) conjunctions.now }
    requires rise { spec.Rise conjunctions.now }
    ensures { result ≡ surely branch.now.literals (spec.disjunction_in branch.now.atoms conjunctions.now) }
{
    let unled = &conjunctions[..led_below(conjunctions, 0)];
    let known = some_of(branch, unled);
    if known == Some(true) {
        return known;
    }
    or(known, led_from(branch, conjunctions, 0))
}

// What is found of the conjunctions led by this name or a later one, one part after another. Those on parts
// with a place are looked at first, since one that is true is found soonest there.
fn led_from(branch: &Branch, conjunctions: &[Conjunction], from: usize) -> Option<bool>
    requires there { All (spec.AreThere (length branch.now.atoms)) conjunctions.now }
    requires rise { spec.Rise conjunctions.now }
    ensures { Finds branch.now conjunctions.now (λ name. from ≤ name) result }
{
    let Some(first) = conjunctions.get(led_below(conjunctions, from)) else {
        return Some(false);
    };
    let Some(lead) = first.lead else {
        unreachable!()
    };
    let names = branch.names();
    let part = names.atoms()[lead].part();
    let end = names.start(part_number(part) + 1);
    match branch.place(part) {
        Some(place) => {
            let known = led_about(branch, conjunctions, place);
            if known == Some(true) {
                return known;
            }
            or(known, led_from(branch, conjunctions, end))
        }
        None => {
            let known = led_from(branch, conjunctions, end);
            if known == Some(true) {
                return known;
            }
            or(known, led_by(branch, conjunctions, lead, end))
        }
    }
}

// What is found of the conjunctions led by a name around this place or under it.
fn led_about(branch: &Branch, conjunctions: &[Conjunction], place: usize) -> Option<bool>
    requires there { All (spec.AreThere (length branch.now.atoms)) conjunctions.now }
    requires rise { spec.Rise conjunctions.now }
    requires place { place < length branch.now.atoms }
    ensures { Finds branch.now conjunctions.now
        (λ name. (around_in branch.now.atoms name place ≡ true)
        ⊎ (around_in branch.now.atoms place name ≡ true)) result }
{
    let known = led_around(branch, conjunctions, place);
    if known == Some(true) {
        return known;
    }
    let names = branch.names();
    let end = names.end(place);
    or(
        known,
        led_by(branch, conjunctions, behind(names, place), end),
    )
}

// What is found of the conjunctions led by a name around this place, the innermost ones first.
fn led_around(branch: &Branch, conjunctions: &[Conjunction], place: usize) -> Option<bool>
    requires there { All (spec.AreThere (length branch.now.atoms)) conjunctions.now }
    requires rise { spec.Rise conjunctions.now }
    requires place { place < length branch.now.atoms }
    ensures { Finds branch.now conjunctions.now
        (λ name. around_in branch.now.atoms name place ≡ true) result }
{
    let names = branch.names();
    let mut known = Some(false);
    let mut next = Some(place);
    while let Some(name) = next {
        known = or(
            known,
            led_by(branch, conjunctions, name, behind(names, name)),
        );
        if known == Some(true) {
            return known;
        }
        next = names.outer(name);
    }
    known
}

// The number behind a name. It doesn't overflow, since the atoms are a slice.
fn behind(names: &Names, name: usize) -> usize
    requires { name < length names.now }
    ensures { result ≡ name + 1 }
{
    let _ = names.atoms();
    name + 1
}

// What is found of the conjunctions led by a name from this one on to that one.
fn led_by(branch: &Branch, conjunctions: &[Conjunction], from: usize, to: usize) -> Option<bool>
    requires there { All (spec.AreThere (length branch.now.atoms)) conjunctions.now }
    requires rise { spec.Rise conjunctions.now }
    ensures { Finds branch.now conjunctions.now (λ name. (from ≤ name) × (name < to)) result }
{
    let rest = &conjunctions[led_below(conjunctions, from)..];
    let led = &rest[..led_below(rest, to)];
    some_of(branch, led)
}

// How many conjunctions are led by a name below this one, or by none. They are the first ones.
fn led_below(conjunctions: &[Conjunction], name: usize) -> usize
    requires { spec.Rise conjunctions.now }
    ensures inside { result ≤ length conjunctions.now }
    ensures before { (k : ℕ) (d : ConjunctionValue) → k < result
        → spec.lead_key (slice_index_or conjunctions.now k d) ≤ name }
    ensures from { (k : ℕ) (d : ConjunctionValue) → result ≤ k → k < length conjunctions.now
        → name < spec.lead_key (slice_index_or conjunctions.now k d) }
{
    conjunctions.partition_point(|conjunction| is_led_below(conjunction, name))
}

fn is_led_below(conjunction: &Conjunction, name: usize) -> bool
    ensures { result ≡ nat_le (spec.lead_key conjunction.now) name }
{
    match conjunction.lead {
        Some(lead) => lead < name,
        None => true,
    }
}

// What is decided of the disjunction of these, each of which is looked at.
#[tactic(auto, using(csp_formula::proofs::Maybe::maybe_or_assoc))]
fn some_of(branch: &Branch, conjunctions: &[Conjunction]) -> Option<bool>
    requires { All (spec.AreThere (length branch.now.atoms)) conjunctions.now }
    ensures { result ≡ surely branch.now.literals (spec.disjunction_in branch.now.atoms conjunctions.now) }
{
    let mut known = Some(false);
    for conjunction in conjunctions {
        known = or(known, all_of(branch, conjunction));
        if known == Some(true) {
            return known;
        }
    }
    known
}

// What is decided of a conjunction.
fn all_of(branch: &Branch, conjunction: &Conjunction) -> Option<bool>
    requires { spec.AreThere (length branch.now.atoms) conjunction.now }
    ensures { result ≡ surely branch.now.literals (spec.conjunction_in branch.now.atoms conjunction.now) }
{
    let port = known_or_true(branch, conjunction.port);
    if port == Some(false) {
        return port;
    }
    let path = known_or_true(branch, conjunction.path);
    if path == Some(false) {
        return path;
    }
    and(known_or_true(branch, conjunction.lead), and(port, path))
}

// What is decided of the atom of a name. Where no name is asked for nothing has to hold.
fn known_or_true(branch: &Branch, name: Option<usize>) -> Option<bool>
    requires { spec.IsThere (length branch.now.atoms) name }
    ensures { result ≡ surely branch.now.literals (spec.fact_in branch.now.atoms name) }
{
    match name {
        Some(name) => branch.known(name),
        None => Some(true),
    }
}

// What is decided of the rule on integrity metadata, where these are its own pairs.
fn integrity_rule(branch: &Branch, rule: &Integrity, own: &[usize]) -> Option<bool>
    requires rule { spec.IsIntegrityThere (length branch.now.atoms) rule.now }
    requires own { All (λ name. name < length branch.now.atoms) own.now }
    ensures { result ≡ surely branch.now.literals (spec.rule_in branch.now.atoms rule.now own.now) }
{
    let none_outside = not(branch.known(rule.outside));
    if none_outside == Some(false) {
        return none_outside;
    }
    let none_other = none_holds(branch, &rule.others);
    if none_other == Some(false) {
        return none_other;
    }
    and(none_outside, and(none_other, one_holds(branch, own)))
}

// Whether the atom of none of the names holds, where that is decided.
#[tactic(auto, using(csp_formula::proofs::Maybe::maybe_and_assoc))]
fn none_holds(branch: &Branch, names: &[usize]) -> Option<bool>
    requires { All (λ name. name < length branch.now.atoms) names.now }
    ensures { result ≡ surely branch.now.literals
        (all_sentences (map (spec.denial_in branch.now.atoms) names.now)) }
{
    let mut known = Some(true);
    for name in names {
        known = and(known, not(branch.known(*name)));
        if known == Some(false) {
            return known;
        }
    }
    known
}

// Whether the atom of one of the names holds, where that is decided.
#[tactic(auto, using(csp_formula::proofs::Maybe::maybe_or_assoc))]
fn one_holds(branch: &Branch, names: &[usize]) -> Option<bool>
    requires { All (λ name. name < length branch.now.atoms) names.now }
    ensures { result ≡ surely branch.now.literals
        (any_sentence (map (spec.name_in branch.now.atoms) names.now)) }
{
    let mut known = Some(false);
    for name in names {
        known = or(known, branch.known(*name));
        if known == Some(true) {
            return known;
        }
    }
    known
}

fn not(known: Option<bool>) -> Option<bool>
    ensures { result ≡ maybe_not known }
{
    known.map(|known| !known)
}

fn and(one: Option<bool>, other: Option<bool>) -> Option<bool>
    ensures { result ≡ maybe_and one other }
{
    match (one, other) {
        (Some(false), _) | (_, Some(false)) => Some(false),
        (Some(true), Some(true)) => Some(true),
        _ => None,
    }
}

fn or(one: Option<bool>, other: Option<bool>) -> Option<bool>
    ensures { result ≡ maybe_or one other }
{
    match (one, other) {
        (Some(true), _) | (_, Some(true)) => Some(true),
        (Some(false), Some(false)) => Some(false),
        _ => None,
    }
}
