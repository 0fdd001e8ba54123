//! What a policy answers at a shape.
ghost use Rattle.std.specs.Prelude.{◌≡◌, ◌++◌, ℕ, All, IfOk, IfSome, List as Items, OnOk, option_copied};
ghost use Rattle.std.specs.Option.{option_to_list};
ghost use Rattle.csp_facts.specs.declared.atom.Atom.{Atom as AtomValue};
ghost use Rattle.csp_answer.specs.Answers as spec;

use crate::conjunction::Conjunction;
use csp_model::Memory;
use std::alloc::Global;

/// The rule on integrity metadata (Subresource Integrity; Content Security Policy Level 3, section 6.7.1.1):
/// each pair is a hash-source of the policy, and there is one.
#[derive(Debug, PartialEq, Eq, Drop)]
pub struct Integrity {
    /// The name of the atom that there is a pair outside the vocabulary.
    pub outside: usize,
    /// The names of the vocabulary's pairs that aren't hash-sources of the policy, in the vocabulary's order.
    pub others: Vec<usize>,
    /// The names of those that are, in the order of the policy's sources.
    pub own: Vec<usize>,
}

/// What a policy says of the checks of a shape: one of the conjunctions holds, or the rule on integrity
/// metadata does, where it counts.
#[derive(Debug, PartialEq, Eq, Drop)]
pub struct ShapeAnswer {
    conjunctions: Vec<Conjunction>,
    integrity: Option<Integrity>,
}

impl ShapeAnswer {
    // The answer that one of these holds, or the rule on integrity metadata. Answers that are made of the
    // same conjunctions are equal, in whatever order these stand.
    pub(crate) fn new(
        mut conjunctions: Vec<Conjunction>,
        integrity: Option<Integrity>,
    ) -> Result<ShapeAnswer, Memory>
        ensures said { IfOk result (λ made. (atoms : Items AtomValue)
            → spec.SaysTheSame (spec.sentence_in atoms made)
            (spec.answer_in atoms conjunctions.items integrity)) }
        ensures among { IfOk result (λ made. (atoms : Items AtomValue)
            → spec.IsAmong (spec.sentence_in atoms made)
            (spec.answer_in atoms conjunctions.items integrity)) }
        ensures answer { IfOk result (λ made. (count : ℕ)
            → All (spec.AreThere count) conjunctions.items
            → IfSome integrity (spec.IsIntegrityThere count) → spec.IsAnswer count made) }
    {
        conjunctions.sort()?;
        conjunctions.dedup();
        Ok(ShapeAnswer {
            conjunctions,
            integrity,
        })
    }

    /// The conjunctions, each once, in ascending order.
    pub fn conjunctions(&self) -> &[Conjunction]
        ensures { result.now ≡ self.now.conjunctions.items }
    {
        &self.conjunctions
    }

    /// The rule on integrity metadata, where it counts.
    pub fn integrity(&self) -> Option<&Integrity>
        ensures { option_copied result ≡ self.now.integrity }
    {
        self.integrity.as_ref()
    }

    /// The names of the answer, each where it stands: those of the conjunctions, then those of the rule.
    pub fn names(&self, alloc: Global) -> Result<Vec<usize>, Memory>
        ensures { IfOk result (λ made. made.items ≡ spec.names_of self.now) }
    {
        let mut names = Vec::new(alloc);
        for conjunction in &self.conjunctions {
            add_names(conjunction, &mut names)?;
        }
        if let Some(integrity) = &self.integrity {
            names.push(integrity.outside)?;
            names.extend_from_slice(&integrity.others)?;
            names.extend_from_slice(&integrity.own)?;
        }
        Ok(names)
    }
}

// Adds the names of a conjunction.
fn add_names(conjunction: &Conjunction, names: &mut Vec<usize>) -> Result<(), Memory>
    ensures { OnOk result (names.new.items ≡ names.old.items ++ spec.names_in conjunction.now) }
{
    add_some(conjunction.lead, names)?;
    add_some(conjunction.port, names)?;
    add_some(conjunction.path, names)
}

// Adds a name where there is one.
fn add_some(name: Option<usize>, names: &mut Vec<usize>) -> Result<(), Memory>
    ensures { OnOk result (names.new.items ≡ names.old.items ++ option_to_list name) }
{
    if let Some(name) = name {
        names.push(name)?;
    }
    Ok(())
}
