//! Digests.
ghost use Rattle.std.specs.Prelude.{◌≡◌, ◌≤◌, All, Any, MatchOption, None, Some, length};
ghost use Rattle.csp_cell.specs.Cells.{IsCell};
ghost use Rattle.csp_model.specs.Tokens.{size_of};
ghost use Rattle.csp_model.specs.Validity.{IsOfSize, IsValidDigests};
ghost use Rattle.csp_model.specs.declared.check.CheckPart.TheVariants as part;
ghost use Rattle.csp_model.specs.declared.source.Algorithm.{Algorithm as AlgorithmValue};
ghost use Rattle.csp_pick.specs.Parts.{MeetPart, bytes_hold, digest_holds};
ghost use Rattle.csp_pick.specs.Said as spec;

use crate::number::{digest_of, free_number};
use csp_cell::Cell;
use csp_facts::Literal;
use csp_model::{Algorithm, CheckPart, Digests};

// Digests of which each literal on digests is true.
pub(crate) fn pick_digests(cell: &Cell) -> Digests
    ensures valid { IsValidDigests result }
    ensures meets { (algorithm : AlgorithmValue)
        → MeetPart (part.Digest algorithm) (digest_holds result) cell.now.literals }
{
    let mut sha256 = [0; 32];
    let mut sha384 = [0; 48];
    let mut sha512 = [0; 64];
    pick_digest(cell, Algorithm::Sha256, &mut sha256);
    pick_digest(cell, Algorithm::Sha384, &mut sha384);
    pick_digest(cell, Algorithm::Sha512, &mut sha512);
    Digests {
        sha256,
        sha384,
        sha512,
    }
}

// Writes the digest of one algorithm: the one that a literal says, or else one that begins with a number with
// which no denied digest begins.
fn pick_digest(cell: &Cell, algorithm: Algorithm, digest: &mut [u8])
    requires { length digest.old ≡ size_of algorithm }
    ensures valid { IsOfSize (size_of algorithm) digest.new }
    ensures meets { MeetPart (part.Digest algorithm) (bytes_hold digest.new) cell.now.literals }
{
    match first_digest(cell.placing(), algorithm) {
        Some(said) => digest.copy_from_slice(said),
        None => {
            let number = free_number(0, cell.others(), CheckPart::Digest(algorithm));
            put_lead(digest, number);
        }
    }
}

// The first digest of the algorithm that a literal speaks of.
fn first_digest(literals: &[Literal], algorithm: Algorithm) -> Option<&[u8]>
    ensures { MatchOption result
        (All (λ l. spec.digest_of algorithm l.atom ≡ None) literals.now)
        (λ said. Any (λ l. spec.digest_of algorithm l.atom ≡ Some said.now) literals.now) }
{
    literals
        .iter()
        .find_map(|literal| digest_of(&literal.atom, algorithm))
}

// Makes a digest begin with the number.
fn put_lead(digest: &mut [u8], number: u64)
    requires { 8 ≤ length digest.old }
    ensures { spec.lead digest.new ≡ number }
{
    digest[..8].copy_from_slice(&number.to_be_bytes());
}
