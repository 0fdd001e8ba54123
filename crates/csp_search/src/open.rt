//! A check of a branch that no leaf may end.
ghost use Rattle.std.specs.Prelude.{◌≡◌, ◌≢◌, [], All, IfOk, IfSome, None, OnOk, length, take};
ghost use Rattle.csp_facts.specs.Atoms.{BelongsTo};
ghost use Rattle.csp_facts.specs.Follows.{decided};
ghost use Rattle.csp_facts.specs.declared.atom.Literal.{Literal as LiteralValue};
ghost use Rattle.csp_branch.specs.Groups.{atom_in};
ghost use Rattle.csp_branch.specs.Walks.{at_root};
ghost use Rattle.csp_search.specs.Answers.{ShowsNone};
ghost use Rattle.csp_search.specs.Asking.{IsAsked, StandsOn};
ghost use Rattle.csp_search.specs.Branches.{IsBranch, IsCellOf, IsFresh};
ghost use Rattle.csp_search.specs.Leaves.{HasNoLeaf};
ghost use Rattle.csp_search.specs.Questions.{asked_atoms, lists_of, pair_of};
ghost use Rattle.csp_facts.specs.Shapes.{looks_at};

use crate::leaf::leaf_of;
use crate::named_question::NamedQuestion;
use csp_answer::laws::an_answer_speaks_of_its_names;
use csp_branch::Walker;
use csp_cell::Cell;
use csp_facts::Shape;
use csp_formula::laws::{
    a_formula_is_what_the_policy_allows, literals_that_decide_each_atom_decide_a_sentence,
    the_atoms_of_a_formula_are_of_its_shape,
};
use csp_model::{Check, Memory};
use csp_pick::representative;
use std::alloc::Global;

// A check of the branch on which no open name holds, if the first list allows it and the policy of the
// second list refuses it.
pub(crate) fn refute(
    alloc: Global,
    asked: NamedQuestion,
    walker: &mut Walker,
) -> Result<Option<Check>, Memory>
    requires { StandsOn asked walker.old }
    ensures found { IfOk result (λ found. IfSome found
        (ShowsNone (lists_of asked.entry.question) (pair_of asked.entry.question))) }
    ensures walker { OnOk result (walker.new ≡ walker.old) }
{
    let depth = walker.depth();
    deny_all(asked, walker);
    let found = if leaf_of(asked.question, walker.branch()).is_none() {
        Some(open_check(alloc, asked, walker)?)
    } else {
        None
    };
    walker.go_back_to(depth);
    Ok(found)
}

// Denies each open name that is asked for.
fn deny_all(asked: NamedQuestion, walker: &mut Walker)
    requires { StandsOn asked walker.old }
    ensures kept { at_root walker.new ≡ at_root walker.old }
    ensures longer { take (length walker.old.literals) walker.new.literals ≡ walker.old.literals }
    ensures stands { StandsOn asked.entry walker.new }
    ensures known { All (λ name. decided walker.new.literals (atom_in walker.new.atoms name) ≢ None)
        asked.entry.names.now }
{
    for name in asked.names {
        if walker.branch().known(*name).is_none() {
            walker.take(*name, false);
        }
    }
}

// A check of a branch where nothing that is asked for is open, and no leaf may stand.
pub(crate) fn open_check(
    alloc: Global,
    asked: NamedQuestion,
    walker: &Walker,
) -> Result<Check, Memory>
    requires asked { IsAsked asked walker.now.atoms }
    requires branch { IsBranch walker.now.atoms (asked_atoms asked.question) walker.now.literals }
    requires known { All (λ name. decided walker.now.literals (atom_in walker.now.atoms name) ≢ None)
        asked.names.now }
    requires no_leaf { HasNoLeaf (lists_of asked.question) (pair_of asked.question) walker.now.literals }
    ensures { IfOk result
        (ShowsNone (lists_of asked.entry.question) (pair_of asked.entry.question)) }
{
    a_formula_is_what_the_policy_allows();
    an_answer_speaks_of_its_names();
    literals_that_decide_each_atom_decide_a_sentence();
    the_atoms_of_a_formula_are_of_its_shape();
    let cell = cell_of(alloc, asked.question.shape, walker)?;
    representative(alloc, &cell, cell.shape(), &asked.question.lists.vocabulary)
}

// The cell of the checks of a shape of which the literals that lead to a branch are true.
fn cell_of(alloc: Global, shape: Shape, walker: &Walker) -> Result<Cell, Memory>
    requires fresh { IsFresh [] walker.now.literals }
    requires belongs { All (λ (literal : LiteralValue). BelongsTo (looks_at shape) literal.atom)
        walker.now.literals }
    ensures { IfOk result (IsCellOf shape walker.now.literals) }
{
    let names = walker.branch().names();
    let atoms = names.atoms();
    let mut cell = Cell::new(alloc, shape);
    for change in walker.changes() {
        let step = change.step;
        cell = cell.narrow(&atoms[step.name], step.positive)?;
    }
    Ok(cell)
}
