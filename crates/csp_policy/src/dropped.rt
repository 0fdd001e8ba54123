//! The line of a piece that is dropped.
ghost use Rattle.std.specs.Prelude.{◌≡◌, ◌++◌, IfOk, OnOk, string_bytes};
ghost use Rattle.csp_policy.specs.ReadingLines.{isomorphic_decode, told_line};
ghost use Rattle.csp_policy.specs.Told.{Dropped};
ghost use Rattle.csp_policy.specs.Tokens.{other_tokens, piece_front, told_tokens, utf8_tokens};

use crate::policies::{write_boolean, write_number, write_text};
use csp_model::Memory;
use json::Writer;
use std::alloc::{AllocError, Global};

// The text that bytes are where each is the code point of that number (Infra Standard, section 4.5).
fn isomorphic_decode(alloc: Global, bytes: &[u8]) -> Result<String, Memory>
    ensures { IfOk result (λ text. string_bytes text ≡ isomorphic_decode bytes.now) }
{
    let mut text = String::new(alloc);
    for byte in bytes {
        text.push(char::from(*byte))?;
    }
    Ok(text)
}

// Writes a piece that is dropped, but for what stands behind the reason.
fn write_piece(out: &mut Writer, shown: &str, line: u64, reason: &str) -> Result<(), AllocError>
    ensures tokens { OnOk result
        (out.new.tokens ≡ out.old.tokens ++ piece_front shown.now line reason.now) }
    ensures before { out.new.before ≡ out.old.before }
{
    out.begin_object()?;
    write_text(out, "dropped", shown)?;
    write_number(out, "line", line)?;
    write_text(out, "reason", reason)
}

// Writes a piece that is dropped and is UTF-8.
#[tactic(auto, unfolding(crate::specs::Tokens::utf8_tokens))]
fn write_utf8(out: &mut Writer, piece: &str, line: u64, reason: &str) -> Result<(), AllocError>
    ensures tokens { OnOk result
        (out.new.tokens ≡ out.old.tokens ++ utf8_tokens piece.now line reason.now) }
    ensures before { out.new.before ≡ out.old.before }
{
    write_piece(out, piece, line, reason)?;
    out.end_object()
}

// Writes a piece that is dropped and isn't, as it is shown.
#[tactic(auto, unfolding(crate::specs::Tokens::other_tokens))]
fn write_other(out: &mut Writer, shown: &str, line: u64, reason: &str) -> Result<(), AllocError>
    ensures tokens { OnOk result
        (out.new.tokens ≡ out.old.tokens ++ other_tokens shown.now line reason.now) }
    ensures before { out.new.before ≡ out.old.before }
{
    write_piece(out, shown, line, reason)?;
    write_boolean(out, "utf8", false)?;
    out.end_object()
}

// Writes a piece that is dropped. Bytes that aren't UTF-8 are shown each as the code point of that number.
fn write_dropped(
    alloc: Global,
    out: &mut Writer,
    piece: &[u8],
    line: u64,
    reason: &str,
) -> Result<(), Memory>
    ensures tokens { OnOk result
        (out.new.tokens ≡ out.old.tokens ++ told_tokens (Dropped piece.now line reason.now)) }
    ensures before { out.new.before ≡ out.old.before }
{
    match str::from_utf8(piece) {
        Ok(shown) => {
            write_utf8(out, shown, line, reason)?;
            Ok(())
        }
        Err(_) => {
            let shown = isomorphic_decode(alloc, piece)?;
            write_other(out, shown.as_str(), line, reason)?;
            Ok(())
        }
    }
}

// The text, and behind it the line of a piece that is dropped for this reason.
#[tactic(auto, unfolding(crate::specs::ReadingLines::told_line, crate::specs::Tokens::told_tokens))]
pub(crate) fn append_dropped(
    alloc: Global,
    text: Vec<u8>,
    piece: &[u8],
    line: u64,
    reason: &str,
) -> Result<Vec<u8>, Memory>
    ensures { IfOk result
        (λ made. made.items ≡ text.items ++ told_line (Dropped piece.now line reason.now)) }
{
    let mut out = Writer::new(text);
    write_dropped(alloc, &mut out, piece, line, reason)?;
    let mut text = out.into_inner();
    text.push(b'\n')?;
    Ok(text)
}
