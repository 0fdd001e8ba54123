//! What reporters tell, in pieces that whoever writes them need not copy.
ghost use Rattle.std.specs.Prelude.{◌≡◌, ◌++◌, OnOk, IfOk};
ghost use Rattle.std.specs.List.{flat_map};

use csp_model::{Bytes, Memory};
use std::alloc::Global;

/// What a reporter tells.
#[derive(Drop)]
pub enum Telling<'a> {
    /// A text that was made for it.
    Made(Bytes),

    /// Pieces that the reporter holds, one after the other.
    Held(Vec<&'a [u8]>),
}

/// What a reporter tells, behind the line that stands before it.
#[derive(Drop)]
pub struct Section<'a> {
    /// The line `reporter lines`, `reporter tally` or `reporter recent`.
    pub heading: &'static str,

    /// What it tells.
    pub telling: Telling<'a>,
}

// Adds the pieces behind a text, one after the other.
fn push_pieces(text: &mut Vec<u8>, pieces: &[&[u8]]) -> Result<(), Memory>
    ensures { OnOk result (text.new.items ≡ text.old.items ++ flat_map (λ piece. piece.now) pieces.now) }
{
    for piece in pieces {
        text.extend_from_slice(piece)?;
    }
    Ok(())
}

// The pieces as one text.
pub(crate) fn concatenate(alloc: Global, pieces: &[&[u8]]) -> Result<Bytes, Memory>
    ensures { IfOk result (λ text. text ≡ flat_map (λ piece. piece.now) pieces.now) }
{
    let mut text = Vec::new(alloc);
    push_pieces(&mut text, pieces)?;
    Ok(Bytes::from_vec(text))
}
