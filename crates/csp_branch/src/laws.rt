//! Laws of branches, each the contract of a function with no body.
ghost use Rattle.std.specs.Prelude.{◌≡◌, ◌≢◌, ◌<◌, [], ◌∷◌, ◌++◌, ℕ, List as Items, length, Bool};
ghost use Rattle.std.specs.Prelude.{Option, Some, None, true, false, not};
ghost use Rattle.std.specs.List.{slice_index_or};
ghost use Rattle.csp_facts.specs.Follows.{decided, follows, or_else};
ghost use Rattle.csp_facts.specs.declared.atom.Atom.{Atom as AtomValue};
ghost use Rattle.csp_facts.specs.declared.atom.Literal.{Literal};
ghost use Rattle.csp_branch.specs.Numbers.{AreInOrder, IsForest, around_in};
ghost use Rattle.csp_branch.specs.Branching as spec;
ghost use Rattle.csp_branch.specs.Changes.{AreChanges, IsLast};
ghost use Rattle.csp_branch.specs.Groups.{group_in};
ghost use Rattle.csp_branch.specs.Marks.{known_in, mark_at, marked, marks_of, with_mark};
ghost use Rattle.csp_branch.specs.Paths.{AreNamed, Path, literal_in, path_of};
ghost use Rattle.csp_branch.specs.declared.branch.Change.{Change as ChangeValue};
ghost use Rattle.csp_branch.specs.declared.named_literal.NamedLiteral.{NamedLiteral as StepValue};

/// One literal more at the end of a path, where the first that decides an atom decides it.
pub fn a_path_grows_by_a_literal()
    ensures { (path : Items Literal) (literal : Literal) (atom : AtomValue)
        → decided (path ++ literal ∷ []) atom ≡ or_else (decided path atom) (follows literal atom) }
{}

/// What a literal says of an atom in its group is told by which of the two is around the other. Of an atom in
/// another group it says nothing.
pub fn a_literal_speaks_of_its_group()
    ensures same { (atoms : Items AtomValue) (known asked : ℕ) (positive : Bool) (d : AtomValue)
        → AreInOrder atoms → known < length atoms → asked < length atoms
        → group_in atoms known ≡ group_in atoms asked
        → follows (literal_in atoms known positive) (slice_index_or atoms asked d)
        ≡ spec.says (around_in atoms) known positive asked }
    ensures other { (atoms : Items AtomValue) (known asked : ℕ) (positive : Bool) (d : AtomValue)
        → AreInOrder atoms → known < length atoms → asked < length atoms
        → group_in atoms known ≢ group_in atoms asked
        → follows (literal_in atoms known positive) (slice_index_or atoms asked d) ≡ None }
{}

/// A literal of an open atom places the check there, or denies the atom with what lies under it.
pub fn an_open_atom_is_placed_or_denied()
    ensures placed { (around : ℕ → ℕ → Bool) (place : Option ℕ) (denied : ℕ → Bool) (known asked : ℕ)
        → IsForest around → spec.IsState around place denied
        → spec.known_at around place denied known ≡ None
        → spec.with_literal around place denied known true asked
        ≡ spec.known_at around (Some known) denied asked }
    ensures denied { (around : ℕ → ℕ → Bool) (place : Option ℕ) (denied : ℕ → Bool) (known asked : ℕ)
        → spec.with_literal around place denied known false asked
        ≡ spec.known_at around place (spec.denied_too around denied known) asked }
    ensures placed_state { (around : ℕ → ℕ → Bool) (place : Option ℕ) (denied : ℕ → Bool) (known : ℕ)
        → IsForest around → spec.IsState around place denied
        → spec.known_at around place denied known ≡ None
        → spec.IsState around (Some known) denied }
    ensures denied_state { (around : ℕ → ℕ → Bool) (place : Option ℕ) (denied : ℕ → Bool) (known : ℕ)
        → IsForest around → spec.IsState around place denied
        → spec.known_at around place denied known ≡ None
        → spec.IsState around place (spec.denied_too around denied known) }
{}

/// A literal that says again what is known adds nothing.
pub fn a_repeated_literal_adds_nothing()
    ensures { (around : ℕ → ℕ → Bool) (place : Option ℕ) (denied : ℕ → Bool)
        (known : ℕ) (positive : Bool) (asked : ℕ)
        → IsForest around → spec.IsState around place denied
        → spec.known_at around place denied known ≡ Some positive
        → spec.with_literal around place denied known positive asked
        ≡ spec.known_at around place denied asked }
{}

/// A literal that says the contrary of what is known decides each atom of its group that was open. They are
/// false, but where an atom that is false is said to hold those around it are true.
pub fn a_contrary_literal_decides_all()
    ensures { (around : ℕ → ℕ → Bool) (place : Option ℕ) (denied : ℕ → Bool)
        (known : ℕ) (positive : Bool) (asked : ℕ)
        → IsForest around → spec.IsState around place denied
        → spec.known_at around place denied known ≡ Some (not positive)
        → spec.with_literal around place denied known positive asked
        ≡ or_else (spec.known_at around place denied asked)
        (Some (spec.sealed around known positive asked)) }
{}

/// What the literals of a path leave at the names tells what they decide of each atom.
pub fn marks_tell_what_a_path_decides()
    ensures { (atoms : Items AtomValue) (steps : Items StepValue) (asked : ℕ) (d : AtomValue)
        → AreInOrder atoms → AreNamed atoms steps → asked < length atoms
        → known_in atoms (marks_of atoms steps) asked
        ≡ decided (path_of atoms steps).literals (slice_index_or atoms asked d) }
{}

/// The last literal of a path is taken back by what stood at its name before it.
pub fn a_literal_is_taken_back_by_one_mark()
    ensures path { (atoms : Items AtomValue) (steps : Items StepValue) (step : StepValue)
        → marks_of atoms (steps ++ step ∷ []) ≡ marked atoms (marks_of atoms steps) step }
    ensures mark { (atoms : Items AtomValue) (steps : Items StepValue) (step : StepValue)
        → with_mark atoms (marks_of atoms (steps ++ step ∷ [])) step.name
        (mark_at atoms (marks_of atoms steps) step.name) ≡ marks_of atoms steps }
{}

/// A walk of a tree can keep the changes of its path one behind another: the last of them is that of the last
/// literal, so it can always be taken back.
pub fn a_walk_keeps_the_changes_of_its_path()
    ensures root { (atoms : Items AtomValue) → AreChanges [] (record { atoms = atoms; literals = [] }) }
    ensures more { (changes : Items ChangeValue) (change : ChangeValue) (path : Path) (literal : Literal)
        → AreChanges changes path
        → IsLast change (record path { literals = path.literals ++ literal ∷ [] })
        → AreChanges (changes ++ change ∷ []) (record path { literals = path.literals ++ literal ∷ [] }) }
    ensures last { (changes : Items ChangeValue) (change : ChangeValue) (path : Path)
        → AreChanges (changes ++ change ∷ []) path → IsLast change path }
    ensures named { (change : ChangeValue) (path : Path)
        → IsLast change path → change.step.name < length path.atoms }
    ensures less { (changes : Items ChangeValue) (change : ChangeValue) (path : Path) (literal : Literal)
        → AreChanges (changes ++ change ∷ []) (record path { literals = path.literals ++ literal ∷ [] })
        → AreChanges changes path }
{}
