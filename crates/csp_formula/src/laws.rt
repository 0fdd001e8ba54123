//! Laws of sentences, each the contract of a function with no body.
ghost use Rattle.std.specs.Prelude.{◌≡◌, ◌≢◌, All, IfSome, List as Items, None};
ghost use Rattle.csp_model.specs.DecideVerdict.{allows};
ghost use Rattle.csp_model.specs.Policies.{IsReadablePolicy};
ghost use Rattle.csp_model.specs.Validity.{IsValidCheck};
ghost use Rattle.csp_model.specs.declared.policy.Policy.{Policy as PolicyValue};
ghost use Rattle.csp_facts.specs.Shapes.{HasShape};
ghost use Rattle.csp_facts.specs.declared.shape.Shape.{Shape as ShapeValue};
ghost use Rattle.csp_formula.specs.Belonging.{IsAtomAt};
ghost use Rattle.csp_formula.specs.Compiled.{HasHashesOf, policy_sentence};
ghost use Rattle.csp_facts.specs.declared.atom.Atom.{Atom as AtomValue};
ghost use Rattle.csp_facts.specs.declared.atom.Literal.{Literal as LiteralValue};
ghost use Rattle.csp_model.specs.declared.check.Check.{Check as CheckValue};
ghost use Rattle.csp_model.specs.declared.source.Hash.{Hash as HashValue};
ghost use Rattle.csp_formula.specs.Sentences.{Sentence};
ghost use Rattle.csp_formula.specs.Surely.{surely};
ghost use Rattle.csp_facts.specs.Follows.{decided};
ghost use Rattle.csp_formula.specs.Values.{AreTrueOf, atoms_in, is_true_for};

use csp_source::laws::each_token_has_one_source;

/// What literals decide of a sentence is its value on each check of which all of them are true.
pub fn what_is_sure_is_so()
    ensures { (hashes : Items HashValue) (asked : CheckValue) (literals : Items LiteralValue)
        (sentence : Sentence) → AreTrueOf hashes asked literals
        → IfSome (surely literals sentence) (λ known. is_true_for hashes asked sentence ≡ known) }
{}

/// Literals that decide each atom of a sentence decide the sentence.
pub fn literals_that_decide_each_atom_decide_a_sentence()
    ensures { (literals : Items LiteralValue) (sentence : Sentence)
        → All (λ (a : AtomValue). decided literals a ≢ None) (atoms_in sentence)
        → surely literals sentence ≢ None }
{}

/// On each valid check of a shape, what a policy says of the shape is true exactly where the policy allows
/// the check: one finite text speaks of all checks of a shape. The policy is as reading makes it, and the
/// vocabulary has its hash-sources.
pub fn a_formula_is_what_the_policy_allows()
    ensures { (policy : PolicyValue) (kind : ShapeValue) (hashes : Items HashValue) (asked : CheckValue)
        → IsReadablePolicy policy → HasHashesOf hashes policy → IsValidCheck asked → HasShape asked kind
        → is_true_for hashes asked (policy_sentence policy kind hashes) ≡ allows policy asked }
{
    each_token_has_one_source();
}

/// What a policy says of a shape is made of atoms on parts that the shape looks at. They are valid, where the
/// values of the vocabulary are base64-values, and each pair of integrity metadata is one of the vocabulary.
/// The policy is as reading makes it, and the vocabulary has its hash-sources.
pub fn the_atoms_of_a_formula_are_of_its_shape()
    ensures { (policy : PolicyValue) (kind : ShapeValue) (hashes : Items HashValue)
        → IsReadablePolicy policy → HasHashesOf hashes policy
        → All (IsAtomAt kind hashes) (atoms_in (policy_sentence policy kind hashes)) }
{
    each_token_has_one_source();
}
