//! Names of directives, whose letters may be of either case.
ghost use Rattle.std.specs.Prelude.{◌≡◌, Some, refl, nat_eq};
ghost use Rattle.csp_model.specs.Ascii.{lower};
ghost use Rattle.std.specs.Cmp.{on_equiv, on_total, partial_equiv_from_equiv, on_po};
ghost use Rattle.std.specs.Cmp.Lexicographic.{pointwise, slice_cmp, nat_list_eq_equiv, nat_list_cmp_total, texts_ties, texts_po};
ghost use Rattle.std.specs.Ordering.{nat_cmp};

use std::cmp::Ordering;

// A name as it is written. Names that differ only in the case of their letters are equal.
#[derive(Clone, Copy, Debug)]
pub(crate) struct CaselessName<'a> {
    pub(crate) bytes: &'a [u8],
}

impl<'a> PartialEq for CaselessName<'a> {
    ghost use Rattle.csp_policy.specs.Names.{folded};

    ghost eq = { λ a b. pointwise nat_eq (folded a) (folded b) };

    ghost laws = { partial_equiv_from_equiv (on_equiv folded nat_list_eq_equiv) };

    fn eq(&self, other: &CaselessName<'a>) -> bool {
        self.bytes.eq_ignore_ascii_case(other.bytes)
    }
}

impl<'a> Eq for CaselessName<'a> {
    ghost use Rattle.csp_policy.specs.Names.{folded};

    ghost laws = { on_equiv folded nat_list_eq_equiv };
}

impl<'a> PartialOrd for CaselessName<'a> {
    ghost use Rattle.csp_policy.specs.Names.{folded};

    ghost partial_cmp = { λ a b. Some (slice_cmp nat_cmp (folded a) (folded b)) };

    ghost laws = { on_po folded texts_po };

    fn partial_cmp(&self, other: &CaselessName<'a>) -> Option<Ordering> {
        Some(self.cmp(other))
    }
}

impl<'a> Ord for CaselessName<'a> {
    ghost use Rattle.csp_policy.specs.Names.{folded};

    ghost cmp = { λ a b. slice_cmp nat_cmp (folded a) (folded b) };

    ghost total = { on_total folded nat_list_cmp_total };

    ghost matches_partial_cmp = { λ a b. refl };

    ghost matches_eq = { λ a b. texts_ties (folded a) (folded b) };

    fn cmp(&self, other: &CaselessName<'a>) -> Ordering {
        compare_folded(self.bytes, other.bytes)
    }
}

// The order of two names in lower case. Bytes that are alike are passed without a look at their case.
fn compare_folded(ours: &[u8], theirs: &[u8]) -> Ordering
    ensures { result ≡ slice_cmp nat_cmp (lower ours.now) (lower theirs.now) }
{
    let mut ours = ours;
    let mut theirs = theirs;
    'bytes: while let (Some((one, after)), Some((other, behind))) = (
        ours.split_first(),
        theirs.split_first(),
    ) {
        if one != other {
            let order = one.to_ascii_lowercase().cmp(&other.to_ascii_lowercase());
            if order.is_ne() {
                return order;
            }
        }
        ours = after;
        theirs = behind;
    }
    ours.len().cmp(&theirs.len())
}
