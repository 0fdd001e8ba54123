//! Paths.
ghost use Rattle.std.specs.Prelude.{◌≡◌, ◌≢◌, [], ◌∷◌, ◌++◌, ℕ, List as Items, All, Any, IfOk, IsTrue, MatchOption, None, Some, unwrap_or};
ghost use Rattle.std.specs.List.{list_all};
ghost use Rattle.std.specs.Option.{option_copied};
ghost use Rattle.csp_model.specs.Validity.{is_piece};
ghost use Rattle.csp_model.specs.declared.check.CheckPart.TheVariants as part;
ghost use Rattle.csp_pick.specs.Parts.{MeetPart, path_holds};
ghost use Rattle.csp_pick.specs.Said.{front_of, last_piece_of, path_of};

use crate::fresh::fresh_text;
use csp_cell::Cell;
use csp_facts::{Atom, Literal};
use csp_model::{Duplicate, Memory, Path, Text};
use std::alloc::Global;

// A valid path of which each literal on paths is true.
pub(crate) fn pick_path(alloc: Global, cell: &Cell) -> Result<Path, Memory>
    ensures some { IfOk result (λ path. path ≢ []) }
    ensures valid { IfOk result (λ path. IsTrue (list_all is_piece path)) }
    ensures meets { IfOk result (λ path. MeetPart part.Path (path_holds path) cell.now.literals) }
{
    // Its contract says that the literals are valid and that none refutes another.
    let _shape = cell.shape();
    match wanted_path(cell.placing()) {
        Some(path) => path.copy(alloc),
        None => path_behind(alloc, wanted_front(cell.placing()), cell.others()),
    }
}

// The path that a literal names.
fn wanted_path(literals: &[Literal]) -> Option<&Path>
    ensures { MatchOption result
        (All (λ l. path_of l.atom ≡ None) literals.now)
        (λ path. Any (λ l. path_of l.atom ≡ Some path.now) literals.now) }
{
    literals.iter().find_map(named_path)
}

fn named_path(literal: &Literal) -> Option<&Path>
    ensures { option_copied result ≡ path_of literal.now.atom }
{
    match &literal.atom {
        Atom::PathIs(path) => Some(path),
        _ => None,
    }
}

// The first pieces that a literal asks of paths, which have more.
fn wanted_front(literals: &[Literal]) -> Option<&Path>
    ensures { MatchOption result
        (All (λ l. front_of l.atom ≡ None) literals.now)
        (λ front. Any (λ l. front_of l.atom ≡ Some front.now) literals.now) }
{
    literals.iter().find_map(named_front)
}

fn named_front(literal: &Literal) -> Option<&Path>
    ensures { option_copied result ≡ front_of literal.now.atom }
{
    match &literal.atom {
        Atom::PathUnder(path) => Some(path),
        _ => None,
    }
}

// The pieces of the front, if there is one, and behind them a piece that ends no path that a literal names.
fn path_behind(alloc: Global, front: Option<&Path>, literals: &[Literal]) -> Result<Path, Memory>
    ensures { IfOk result (λ path. (piece : Items ℕ) × IsTrue (is_piece piece)
        × (path ≡ unwrap_or (option_copied front.entry) [] ++ piece ∷ [])
        × All (λ l. last_piece_of l.atom ≢ Some piece) literals.now) }
{
    let mut path = match front {
        Some(front) => front.copy(alloc)?,
        None => Path::new(alloc)?,
    };
    path.push(free_piece(alloc, literals)?.as_str().as_bytes())?;
    Ok(path)
}

// A piece that ends no path that a literal names: the empty one, where it is one.
fn free_piece(alloc: Global, literals: &[Literal]) -> Result<Text, Memory>
    ensures valid { IfOk result (λ piece. IsTrue (is_piece piece)) }
    ensures free { IfOk result (λ piece. All (λ l. last_piece_of l.atom ≢ Some piece) literals.now) }
{
    fresh_text(alloc, "", "", literals)
}
