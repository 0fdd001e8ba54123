//! Laws of names, each the contract of a function with no body.
ghost use Rattle.std.specs.Prelude.{◌≡◌, ◌≢◌, ◌↔◌, ◌⊎◌, ◌<◌, ◌≤◌, ℕ, List as Items, None, length};
ghost use Rattle.std.specs.Prelude.{false, true};
ghost use Rattle.std.specs.List.{slice_index_or};
ghost use Rattle.csp_model.specs.declared.check.CheckPart.TheVariants as part;
ghost use Rattle.csp_facts.specs.Atoms.{part_of, IsValidAtom};
ghost use Rattle.csp_facts.specs.Follows.{follows, nested, true_where, false_where};
ghost use Rattle.csp_facts.specs.declared.atom.Atom.{Atom as AtomValue};
ghost use Rattle.csp_branch.specs.Around.{is_around, StandsAlone};
ghost use Rattle.csp_branch.specs.Hosts.{host_key, IsHostAtom};
ghost use Rattle.csp_branch.specs.Numbers.{AreInOrder, IsForest, around_in};
ghost use Rattle.csp_branch.specs.Prefix.{IsFrontOf};

/// What an atom or its negation says of another is told by which of the two is around the other. An atom on
/// its part that is apart from it is false, but of the pairs of integrity metadata a check may have many.
pub fn the_table_is_told_by_what_is_around()
    ensures one_part { (known asked : AtomValue) → part_of known ≡ part_of asked → StandsAlone known
        → follows (record { atom = known; positive = true }) asked
        ≡ nested (is_around asked known) (is_around known asked) }
    ensures integrity { (known asked : AtomValue) → part_of known ≡ part.Integrity
        → follows (record { atom = known; positive = true }) asked ≡ true_where (is_around asked known) }
    ensures other_parts { (known asked : AtomValue) → (part_of known ≢ part_of asked)
        → follows (record { atom = known; positive = true }) asked ≡ None }
    ensures negation { (known asked : AtomValue)
        → follows (record { atom = known; positive = false }) asked ≡ false_where (is_around known asked) }
{}

/// An atom is around others on its part alone. Of two atoms around a third one, one is around the other: so
/// those on a part are nested or apart.
pub fn atoms_are_nested_or_apart()
    ensures parts { (outer inner : AtomValue) → is_around outer inner ≡ true → part_of outer ≡ part_of inner }
    ensures nest { (first second inner : AtomValue)
        → IsValidAtom first → IsValidAtom second → IsValidAtom inner
        → is_around first inner ≡ true → is_around second inner ≡ true
        → (is_around first second ≡ true) ⊎ (is_around second first ≡ true) }
{}

/// The names of atoms in order are a forest.
pub fn names_are_a_forest()
    ensures { (atoms : Items AtomValue) → AreInOrder atoms → IsForest (around_in atoms) }
{}

/// An atom has one name.
pub fn an_atom_has_one_name()
    ensures { (atoms : Items AtomValue) (i j : ℕ) (d : AtomValue) → AreInOrder atoms
        → i < length atoms → j < length atoms
        → slice_index_or atoms i d ≡ slice_index_or atoms j d → i ≡ j }
{}

/// What names say of names is what their atoms say.
pub fn names_say_what_their_atoms_say()
    ensures { (atoms : Items AtomValue) (outer inner : ℕ) (d : AtomValue)
        → outer < length atoms → inner < length atoms
        → around_in atoms outer inner
        ≡ is_around (slice_index_or atoms outer d) (slice_index_or atoms inner d) }
{}

/// The names of the atoms on one part are a range of numbers.
pub fn atoms_on_one_part_stand_together()
    ensures { (atoms : Items AtomValue) (i j k : ℕ) (d : AtomValue) → AreInOrder atoms
        → i ≤ j → j ≤ k → k < length atoms
        → part_of (slice_index_or atoms i d) ≡ part_of (slice_index_or atoms k d)
        → part_of (slice_index_or atoms i d) ≡ part_of (slice_index_or atoms j d) }
{}

/// An atom on hosts is around another exactly where the other's key begins with its own.
pub fn what_is_around_a_host_begins_its_key()
    ensures { (outer inner : AtomValue) → IsHostAtom outer → IsHostAtom inner
        → (is_around outer inner ≡ true ↔ IsFrontOf (host_key outer) (host_key inner)) }
{}
