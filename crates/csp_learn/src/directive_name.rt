//! The name of a directive, in the order of its bytes.
ghost use Rattle.std.specs.Prelude.{ℕ, ◌≡◌, ◌==◌, List, Some, refl};
ghost use Rattle.std.specs.Cmp.Lexicographic.{pointwise, slice_cmp, nat_list_cmp_total, texts_po, texts_ties};
ghost use Rattle.std.specs.Cmp.Rules.{comparing};
ghost use Rattle.std.specs.Ordering.{nat_cmp};
ghost use Rattle.std.proofs.Common.{rules};
ghost use Rattle.csp_model.specs.Names as spec;

use csp_model::{Name, name_text};
use std::cmp::Ordering;
use std::marker::Model;

// A directive's name, seen as its bytes.
#[derive(Debug, Drop)]
pub(crate) struct DirectiveName {
    name: Name,
}

impl Model for DirectiveName {
    ghost Value = { List ℕ };

    ghost view = { λ a. spec.name_text a.name };
}

impl DirectiveName {
    pub(crate) fn new(name: Name) -> DirectiveName
        ensures { result ≡ spec.name_text name }
    {
        DirectiveName { name }
    }

    pub(crate) fn as_str(&self) -> &str
        ensures { result.now ≡ self.now }
    {
        name_text(self.name)
    }
}

impl PartialEq for DirectiveName {
    ghost eq = { pointwise ◌==◌ };

    ghost laws = { Prim.search (comparing, rules) };

    fn eq(&self, other: &DirectiveName) -> bool {
        self.as_str() == other.as_str()
    }
}

impl Eq for DirectiveName {
    ghost laws = { Prim.search (comparing, rules) };
}

impl PartialOrd for DirectiveName {
    ghost partial_cmp = { λ a b. Some (slice_cmp nat_cmp a b) };

    ghost laws = { texts_po };

    fn partial_cmp(&self, other: &DirectiveName) -> Option<Ordering> {
        Some(self.cmp(other))
    }
}

impl Ord for DirectiveName {
    ghost cmp = { slice_cmp nat_cmp };

    ghost total = { nat_list_cmp_total };

    ghost matches_partial_cmp = { λ a b. refl };

    ghost matches_eq = { texts_ties };

    // Most needs are compared with needs of the same directive.
    fn cmp(&self, other: &DirectiveName) -> Ordering {
        if self.name == other.name {
            return Ordering::Equal;
        }
        self.as_str().cmp(other.as_str())
    }
}
