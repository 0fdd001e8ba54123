//! What literals leave behind at names, and what is known of an atom by it.
ghost use Rattle.std.specs.Prelude.{◌≡◌, ◌<◌, false, length};
ghost use Rattle.std.specs.Option.{ForSome};
ghost use Rattle.csp_facts.specs.Follows.{false_where, or_else};
ghost use Rattle.csp_branch.specs.Numbers.{around_in};
ghost use Rattle.csp_branch.specs.Marks as spec;

use crate::named_literal::NamedLiteral;
use crate::names::Names;

// What literals say of a group of names.
#[derive(Clone, Copy, Debug)]
pub(crate) struct GroupState {
    // The innermost atom that holds: the last one that was said to hold while it was open.
    pub(crate) place: Option<usize>,
    // The first literal that was contrary to what was known of its atom: it decides each atom of the group
    // that was open.
    pub(crate) seal: Option<NamedLiteral>,
}

// What stands at a name: what is said of its group, and whether its own atom was denied.
#[derive(Clone, Copy, Debug)]
pub(crate) struct Mark {
    pub(crate) group: GroupState,
    pub(crate) denied: bool,
}

impl Mark {
    // The mark after one literal more of this name, where so much was known of its atom. An open atom becomes
    // the place, or is denied. What is known already changes nothing if it is said again.
    pub(crate) fn after(self, known: Option<bool>, step: NamedLiteral) -> Mark
        ensures { result ≡ spec.after known step self }
    {
        match known {
            None => {
                if step.positive {
                    self.with_place(step.name)
                } else {
                    Mark {
                        denied: true,
                        ..self
                    }
                }
            }
            Some(value) => {
                if value == step.positive {
                    self
                } else {
                    self.with_seal(step)
                }
            }
        }
    }

    fn with_place(self, name: usize) -> Mark
        ensures { result ≡ spec.placed name self }
    {
        let group = GroupState {
            place: Some(name),
            ..self.group
        };
        Mark { group, ..self }
    }

    // The mark after a contrary literal. A seal that stands there already stays.
    fn with_seal(self, step: NamedLiteral) -> Mark
        ensures { result ≡ spec.sealed_by step self }
    {
        if self.group.seal.is_some() {
            return self;
        }
        let group = GroupState {
            seal: Some(step),
            ..self.group
        };
        Mark { group, ..self }
    }
}

// What is known of an atom, by what is said of its group and by the atoms that were denied. What is around
// the place is true, what is apart from it is false.
pub(crate) fn known_of(
    names: &Names,
    group: GroupState,
    denied: &[bool],
    asked: usize,
) -> Option<bool>
    requires asked { asked < length names.now }
    requires denied { length denied.now ≡ length names.now }
    requires clear { ForSome group.place
        (λ place. spec.is_denied_in names.now denied.now place ≡ false) }
    ensures { result
        ≡ spec.known_by (around_in names.now) group (spec.is_denied_in names.now denied.now) asked }
{
    let Some(place) = group.place else {
        return known_inside(names, group, denied, asked);
    };
    if names.is_around(asked, place) {
        Some(true)
    } else if names.is_around(place, asked) {
        known_inside(names, group, denied, asked)
    } else {
        Some(false)
    }
}

// What is known of an atom that the place is around, or where there is no place.
fn known_inside(names: &Names, group: GroupState, denied: &[bool], asked: usize) -> Option<bool>
    requires asked { asked < length names.now }
    requires denied { length denied.now ≡ length names.now }
    requires clear { ForSome group.place
        (λ place. spec.is_denied_in names.now denied.now place ≡ false) }
    ensures { result ≡ or_else (false_where (spec.is_denied_in names.now denied.now asked))
        (spec.seal_says (around_in names.now) group.seal asked) }
{
    if is_denied(names, denied, group.place, asked) {
        return Some(false);
    }
    let seal = group.seal?;
    let is_inner = names.is_around(asked, seal.name);
    Some(seal.positive && is_inner)
}

// Whether an atom was denied, or one around it. It looks outwards as far as the place: what is around that
// wasn't denied.
fn is_denied(names: &Names, denied: &[bool], place: Option<usize>, asked: usize) -> bool
    requires asked { asked < length names.now }
    requires denied { length denied.now ≡ length names.now }
    requires clear { ForSome place (λ place. spec.is_denied_in names.now denied.now place ≡ false) }
    ensures { result ≡ spec.is_denied_in names.now denied.now asked }
{
    names.are_in_order();
    let mut next = Some(asked);
    while let Some(name) = next {
        if denied[name] {
            return true;
        }
        if let Some(end) = place
            && end == name
        {
            return false;
        }
        next = names.outer(name);
    }
    false
}
