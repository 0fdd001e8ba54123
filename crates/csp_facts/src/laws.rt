//! Laws of atoms and literals, each the contract of a function with no body.
ghost use Rattle.std.specs.Prelude.{◌≡◌, ◌↔◌, All, IsTrue, List as Items, ℕ, Some};
ghost use Rattle.csp_model.specs.Parts.{has_part};
ghost use Rattle.csp_model.specs.declared.check.Check.{Check as CheckValue};
ghost use Rattle.csp_model.specs.declared.source.Hash.{Hash as HashValue};
ghost use Rattle.csp_facts.specs.Atoms.{Holds, IsValidAtom, part_of};
ghost use Rattle.csp_facts.specs.Follows.{follows, Refutes};
ghost use Rattle.csp_facts.specs.Holding.{holds};
ghost use Rattle.csp_facts.specs.Spelling.{is_word, spelled};
ghost use Rattle.csp_facts.specs.declared.atom.Atom.{Atom as AtomValue};
ghost use Rattle.csp_facts.specs.declared.atom.Literal.{Literal as LiteralValue};

/// An atom holds for a check by its test exactly where the check has the fact. So it holds or doesn't.
pub fn the_test_of_an_atom_decides_it()
    ensures { (hashes : Items HashValue) (asked : CheckValue) (atom : AtomValue)
        → (IsTrue (holds hashes asked atom) ↔ Holds hashes asked atom) }
{}

/// An atom holds only for checks that have the part that it speaks of.
pub fn an_atom_that_holds_has_its_part()
    ensures { (hashes : Items HashValue) (asked : CheckValue) (atom : AtomValue)
        → Holds hashes asked atom → IsTrue (has_part asked (part_of atom)) }
{}

/// A literal says of its own atom whether it is the atom or its denial.
pub fn a_literal_decides_its_own_atom()
    ensures { (literal : LiteralValue) → follows literal literal.atom ≡ Some literal.positive }
{}

/// Where one literal refutes another, the other refutes it.
pub fn refutation_is_mutual()
    ensures { (literal other : LiteralValue) → Refutes literal other → Refutes other literal }
{}

/// A valid atom is one that a proof can spell: its spelling has words of visible ASCII characters alone, and
/// no other valid atom has it.
pub fn a_valid_atom_is_told_by_its_spelling()
    ensures words { (atom : AtomValue) → IsValidAtom atom
        → All (λ (word : Items ℕ). IsTrue (is_word word)) (spelled atom) }
    ensures one { (first second : AtomValue) → IsValidAtom first → IsValidAtom second
        → spelled first ≡ spelled second → first ≡ second }
{}
