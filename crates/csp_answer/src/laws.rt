//! Laws of answers, each the contract of a function with no body.
ghost use Rattle.std.specs.Prelude.{◌≡◌, ◌<◌, ℕ, All, List as Items, map};
ghost use Rattle.csp_facts.specs.declared.atom.Atom.{Atom as AtomValue};
ghost use Rattle.csp_branch.specs.Groups.{atom_in};
ghost use Rattle.csp_formula.specs.Values.{atoms_in};
ghost use Rattle.csp_answer.specs.Answers.{IsAnswer, names_of, sentence_in};
ghost use Rattle.csp_answer.specs.declared.answer.ShapeAnswer.{ShapeAnswer as AnswerValue};

/// The atoms that an answer speaks of are those of its names, each where it stands, and its names are there.
pub fn an_answer_speaks_of_its_names()
    ensures atoms { (atoms : Items AtomValue) (answer : AnswerValue)
        → atoms_in (sentence_in atoms answer) ≡ map (atom_in atoms) (names_of answer) }
    ensures there { (count : ℕ) (answer : AnswerValue) → IsAnswer count answer
        → All (λ name. name < count) (names_of answer) }
{}
