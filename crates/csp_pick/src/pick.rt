//! A check of a cell.
ghost use Rattle.std.specs.Prelude.{◌≡◌, All, IfOk, IsTrue};
ghost use Rattle.csp_cell.specs.Cells.{IsOf, Meets};
ghost use Rattle.csp_model.specs.Fetch.{is_redirected};
ghost use Rattle.csp_model.specs.Validity.{IsValidCheck};
ghost use Rattle.csp_pick.specs.Picks.{AreOfVocabulary, LeavesPorts};
ghost use Rattle.csp_facts.specs.Shapes.{HasShape, is_shape};

use crate::digest::pick_digests;
use crate::integrity::pick_integrity;
use crate::nonce::pick_nonce;
use crate::url::pick_url;
use csp_cell::Cell;
use csp_facts::{Shape, Vocabulary};
use csp_model::{Check, Memory};
use std::alloc::Global;

/// A valid check of the shape of which each literal of the cell is true, where the vocabulary has the hashes
/// that the cell's literals speak of.
pub fn representative(
    alloc: Global,
    cell: &Cell,
    shape: Shape,
    vocabulary: &Vocabulary,
) -> Result<Check, Memory>
    requires shape { shape ≡ cell.now.shape }
    requires listed { IsTrue (is_shape shape) }
    requires known { AreOfVocabulary vocabulary.now.hashes cell.now.literals }
    requires ports { LeavesPorts cell.now.literals }
    ensures valid { IfOk result IsValidCheck }
    ensures shape { IfOk result (λ asked. HasShape asked shape) }
    ensures meets { IfOk result (λ asked. Meets vocabulary.now.hashes asked cell.now.literals) }
{
    check_of(alloc, cell, cell.shape(), vocabulary)
}

// A check of the shape, made of its parts.
fn check_of(
    alloc: Global,
    cell: &Cell,
    shape: Shape,
    vocabulary: &Vocabulary,
) -> Result<Check, Memory>
    requires listed { IsTrue (is_shape shape) }
    requires each { All (IsOf shape) cell.now.literals }
    requires known { AreOfVocabulary vocabulary.now.hashes cell.now.literals }
    requires ports { LeavesPorts cell.now.literals }
    ensures valid { IfOk result IsValidCheck }
    ensures shape { IfOk result (λ asked. HasShape asked shape) }
    ensures meets { IfOk result (λ asked. Meets vocabulary.now.hashes asked cell.now.literals) }
{
    match shape {
        Shape::Fetch {
            group,
            scheme,
            redirected,
            parser_inserted,
        } => Ok(Check::Fetch {
            group,
            url: pick_url(alloc, cell, scheme, !redirected)?,
            redirects: redirects_of(redirected),
            nonce: pick_nonce(alloc, cell)?,
            integrity: pick_integrity(alloc, cell, vocabulary)?,
            parser_inserted,
        }),
        Shape::Form { scheme, redirected } => Ok(Check::Form {
            url: pick_url(alloc, cell, scheme, !redirected)?,
            redirects: redirects_of(redirected),
        }),
        Shape::Base { scheme } => Ok(Check::Base {
            url: pick_url(alloc, cell, scheme, true)?,
        }),
        Shape::Ancestor { scheme } => Ok(Check::Ancestor {
            url: pick_url(alloc, cell, scheme, false)?,
        }),
        Shape::Inline { kind } => Ok(Check::Inline {
            kind,
            nonce: pick_nonce(alloc, cell)?,
            digests: pick_digests(cell),
        }),
        Shape::OpaqueAncestor => Ok(Check::OpaqueAncestor),
        Shape::Eval => Ok(Check::Eval),
        Shape::Wasm => Ok(Check::Wasm),
        Shape::Capability { capability } => Ok(Check::Capability { capability }),
        Shape::WorkerStart => Ok(Check::WorkerStart),
    }
}

// How many redirects led to a URL: one, where any did.
fn redirects_of(redirected: bool) -> u32
    ensures { redirected ≡ is_redirected result }
{
    u32::from(redirected)
}
