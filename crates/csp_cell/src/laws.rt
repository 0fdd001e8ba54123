//! Laws of literals, each the contract of a function with no body.
ghost use Rattle.std.specs.Prelude.{◌≡◌, ◌≢◌, ◌↔◌, AllPairs, true};
ghost use Rattle.csp_facts.specs.declared.atom.Literal.{Literal as LiteralValue};
ghost use Rattle.csp_facts.specs.Atoms.{part_of};
ghost use Rattle.csp_cell.specs.Cells.{Covers, IsCell, Region, implies};
ghost use Rattle.csp_cell.specs.Inside.{IsPlacing};

/// A literal decides all that another decides, with the same values, exactly where it makes the other true.
pub fn a_literal_covers_what_it_implies()
    ensures { (literal other : LiteralValue) → (Covers literal other ↔ (implies literal other ≡ true)) }
{}

/// A cell has at most one positive literal on the host, on the port, on the path, on the scheme of a URL
/// without a host, on the nonce and on the digest of each algorithm.
pub fn a_part_is_placed_once()
    ensures { (region : Region) → IsCell region → AllPairs
        (λ (literal other : LiteralValue). IsPlacing literal → IsPlacing other
        → part_of literal.atom ≢ part_of other.atom) region.literals }
{}
