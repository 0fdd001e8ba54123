//! What becomes of the pieces of serialized policies (Content Security Policy Level 3, section 2.2.1).
ghost use Rattle.std.specs.Prelude.{◌≡◌, IfOk, map};
ghost use Rattle.csp_policy.specs.Delivered.{piece_said};
ghost use Rattle.csp_policy.specs.Fates.{fates};
ghost use Rattle.csp_policy.specs.Standings.{standing_said, IsAsciiStanding};

use crate::directive::{Standing, read_whole, stand};
use crate::pieces::Pieces;
use csp_model::{Directive, Memory};
use std::alloc::Global;
use std::collections::BTreeSet;

/// Why a piece is dropped.
#[derive(Clone, Copy, Debug, PartialEq, Eq)]
pub enum Reason {
    /// The policy has a directive of its name already.
    Duplicate,
    /// It has a byte of 128 or more.
    NotAscii,
    /// A meta element may not carry the directive.
    NotInMeta,
}

/// What becomes of a piece of a serialized policy between semicolons.
#[derive(Debug, PartialEq, Eq, Drop)]
pub enum Fate {
    /// It has no word, and counts for nothing.
    Empty,
    Dropped { reason: Reason },
    Kept { directive: Directive },
}

/// A piece of a serialized policy, and what becomes of it.
#[derive(Debug, Drop)]
pub struct Piece<'a> {
    pub text: &'a [u8],
    pub fate: Fate,
}

fn fate_of(alloc: Global, standing: Standing<'_>) -> Result<Fate, Memory>
    requires { IsAsciiStanding standing }
    ensures { IfOk result (λ fate. fate ≡ standing_said standing.entry) }
{
    match standing {
        Standing::Empty => Ok(Fate::Empty),
        Standing::Dropped { reason } => Ok(Fate::Dropped { reason }),
        Standing::Kept { name, text } => Ok(Fate::Kept {
            directive: read_whole(alloc, name, text)?,
        }),
    }
}

/// The pieces of a serialized policy between semicolons, in order, each with what becomes of it. `meta` is
/// whether a meta element delivers the policy.
pub fn read_pieces<'a>(alloc: Global, value: &'a [u8], meta: bool) -> Result<Vec<Piece<'a>>, Memory>
    ensures { IfOk result (λ made. map piece_said made.items ≡ fates meta value.now) }
{
    let mut seen = BTreeSet::new(alloc);
    let mut made = Vec::new(alloc);
    for text in Pieces::new_short(value, b';') {
        let standing = stand(&mut seen, meta, text)?;
        made.push(Piece {
            text,
            fate: fate_of(alloc, standing)?,
        })?;
    }
    Ok(made)
}
