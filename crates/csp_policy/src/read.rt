//! What is told of a whole policy file.
ghost use Rattle.std.specs.Prelude.{◌≡◌, ◌++◌, IfOk, map};
ghost use Rattle.std.specs.List.{filter_map, flat_map};
ghost use Rattle.csp_model.specs.Ascii.{is_nonempty};
ghost use Rattle.csp_policy.specs.Delivered.{piece_said, serialized_said};
ghost use Rattle.csp_policy.specs.ReadingLines.{reading_text, told_line};
ghost use Rattle.csp_policy.specs.Told.{directives_in, told_dropped, told_policy, told_with};

use crate::dropped::append_dropped;
use crate::fate::{Fate, Piece, read_pieces};
use crate::fields::trim;
use crate::kinds::reason_text;
use crate::policies::append_policy;
use crate::serialized::{SerializedPolicy, serialized_policies};
use csp_model::{Bytes, Memory};
use std::alloc::Global;

// Whether a directive is kept among these pieces.
fn has_kept(pieces: &[Piece<'_>]) -> bool
    ensures { result ≡ is_nonempty (directives_in (map piece_said pieces.now)) }
{
    for piece in pieces {
        if let Fate::Kept { .. } = &piece.fate {
            return true;
        }
    }
    false
}

// The text, and behind it a line for each of these pieces that is dropped.
fn append_pieces(
    alloc: Global,
    text: Vec<u8>,
    line: u64,
    pieces: &[Piece<'_>],
) -> Result<Vec<u8>, Memory>
    ensures { IfOk result (λ made. made.items ≡ text.items
        ++ flat_map told_line (filter_map (told_dropped line) (map piece_said pieces.now))) }
{
    let mut text = text;
    for piece in pieces {
        if let Fate::Dropped { reason } = &piece.fate {
            text = append_dropped(alloc, text, trim(piece.text), line, reason_text(*reason))?;
        }
    }
    Ok(text)
}

// The text, and behind it the line of a serialized policy with these pieces. Where one is kept, it has this number.
fn append_front(
    alloc: Global,
    text: Vec<u8>,
    number: u64,
    policy: &SerializedPolicy<'_>,
    pieces: &[Piece<'_>],
) -> Result<Vec<u8>, Memory>
    ensures { IfOk result (λ made. made.items ≡ text.items ++ told_line
        (told_policy number (serialized_said policy.now) (directives_in (map piece_said pieces.now)))) }
{
    if has_kept(pieces) {
        append_policy(text, number, policy, pieces)
    } else {
        append_dropped(alloc, text, trim(policy.text), policy.line, "empty-policy")
    }
}

// The text, and behind it what is told of a serialized policy with these pieces.
fn append_told(
    alloc: Global,
    text: Vec<u8>,
    number: u64,
    policy: &SerializedPolicy<'_>,
    pieces: &[Piece<'_>],
) -> Result<Vec<u8>, Memory>
    ensures { IfOk result (λ made. made.items ≡ text.items ++ flat_map told_line
        (told_with number (serialized_said policy.now) (map piece_said pieces.now))) }
{
    let text = append_front(alloc, text, number, policy, pieces)?;
    append_pieces(alloc, text, policy.line, pieces)
}

/// Tells how a policy file is read: a JSON object on a line of its own for each policy, and for each piece that
/// is dropped, in their order.
///
/// A kept policy is told with its number in the list that `read_block` gives, its line, its disposition, whether
/// a meta element delivers it, and its directives; each of these with its name, whether it may govern a check,
/// and its tokens with their kinds. A serialized policy in which no directive is left, and a piece between
/// semicolons that is dropped, are told with their text, line and the reason. The pieces of a policy follow it.
/// Text that isn't UTF-8 is shown a code point for each byte, and told as such.
pub fn reading(alloc: Global, bytes: &[u8]) -> Result<Bytes, Memory>
    ensures { IfOk result (λ text. text ≡ reading_text bytes.now) }
{
    let policies = serialized_policies(alloc, bytes)?;
    let mut text = Vec::new(alloc);
    let mut number = 0;
    for policy in policies.as_slice() {
        let pieces = read_pieces(alloc, policy.text, policy.meta)?;
        text = append_told(alloc, text, number, policy, pieces.as_slice())?;
        if has_kept(pieces.as_slice()) {
            number += 1;
        }
    }
    Ok(Bytes::from_vec(text))
}
