//! Groups of names. Of two names in a group that are apart no check has both, and a literal says nothing of
//! an atom in another group.
ghost use Rattle.std.specs.Prelude.{◌≡◌, ◌<◌, length};
ghost use Rattle.csp_branch.specs.Groups.{group_in, groups_in};

use crate::names::Names;
use crate::order::part_number;
use csp_model::CheckPart;

// The number of a name's group: its part's, but each pair of integrity metadata is in a group of its own,
// since a check may have many pairs.
pub(crate) fn group_of(names: &Names, name: usize) -> usize
    requires { name < length names.now }
    ensures inside { result < groups_in names.now }
    ensures number { result ≡ group_in names.now name }
{
    let atom = &names.atoms()[name];
    match atom.part() {
        CheckPart::Integrity => 9 + name,
        part => part_number(part) as usize,
    }
}

// How many groups there may be: the number of each is below this one.
pub(crate) fn group_count(names: &Names) -> usize
    ensures { result ≡ groups_in names.now }
{
    9 + names.atoms().len()
}
