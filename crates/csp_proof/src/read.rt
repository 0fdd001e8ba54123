//! Reads proofs.
ghost use Rattle.std.specs.Prelude.{◌≡◌, ◌<◌, ◌≤◌, ◌-◌, ◌^◌, ◌∷◌, [], length, position, IfOk, IfErr, MatchOption, IfSome, ◌==◌, ◌+◌};
ghost use Rattle.csp_model.specs.Ascii.{code, split_at};
ghost use Rattle.csp_proof.specs.Places as places;
ghost use Rattle.csp_model.specs.Answers.{Gives};
ghost use Rattle.csp_proof.specs.Texts as spec;
ghost use Rattle.csp_proof.specs.declared.proof.Proof.{Proof as ProofValue};

use crate::error::ProofError;
use crate::line::read_line;
use crate::progress::Progress;
use crate::proof::Proof;
use std::alloc::Global;

fn newline_at(text: &[u8]) -> Option<usize>
    ensures value { result ≡ position (λ c. c == code "\n") text.now }
    ensures bound { IfSome result (λ at. at < length text.now) }
{
    text.iter().position(|b| *b == b'\n')
}

// The first line of a text that a line feed ends, and what stands behind that.
fn first_line(text: &[u8]) -> Option<(&[u8], &[u8])>
    ensures parts { MatchOption result (split_at (code "\n") text.now ≡ text.now ∷ [])
        (λ parts. split_at (code "\n") text.now ≡ parts.0.now ∷ split_at (code "\n") parts.1.now) }
    ensures shorter { IfSome result (λ parts. length parts.1.now < length text.now) }
{
    match newline_at(text) {
        Some(at) => Some((&text[..at], &text[at + 1..])),
        None => None,
    }
}

// The place behind the line that a text spells, which is the one of this number.
fn place_behind(
    alloc: Global,
    place: Progress,
    number: u32,
    text: &[u8],
) -> Result<Progress, ProofError>
    requires { places.branches place + 1 < 2 ^ 32 }
    ensures ok { IfOk result (λ after. places.Leads number place text.now after) }
    ensures bad { IfErr result (λ e. places.IsStuck number place text.now e) }
    ensures branches { IfOk result (λ after. places.branches after ≤ places.branches place + 1) }
{
    let Some(line) = read_line(alloc, text)? else {
        return Err(ProofError::BadProof { line: number });
    };
    match place.next(alloc, number, line)? {
        Some(after) => Ok(after),
        None => Err(ProofError::BadProof { line: number }),
    }
}

// The proof at whose end the lines are, where nothing stands behind them. Else the line of this number can't
// stand there.
fn whole_proof(place: Progress, rest: &[u8], number: u32) -> Result<Proof, ProofError>
    ensures { result ≡ places.proof_at place rest.now number }
{
    match place {
        Progress::Done { proof } if rest.is_empty() => Ok(proof),
        _ => Err(ProofError::BadProof { line: number }),
    }
}

/// Reads the proof that a text is.
///
/// `BadProof` names the first line that can't stand in the text of a proof, counted from 1: one that spells
/// nothing, or that can't follow the lines before it. A last line without its line feed can't stand. Where
/// the text ends early, and where anything follows the line `end`, it is the line behind the last.
/// The text is shorter than 4 GiB, so that each line has a number.
pub fn read_proof(alloc: Global, bytes: &[u8]) -> Result<Proof, ProofError>
    requires { length bytes.now < 2 ^ 32 - 1 }
    ensures proof { IfOk result (λ proof. spec.IsTextOf proof bytes.now) }
    ensures bad { IfErr result (spec.IsRefusal bytes.now) }
    ensures only { (proof : ProofValue) → spec.IsTextOf proof bytes.now
        → Gives ProofError.Memory result (Ok proof) }
{
    let mut place = Progress::Start;
    let mut number = 1;
    let mut rest = bytes;
    while let Some((text, behind)) = first_line(rest) {
        place = place_behind(alloc, place, number, text)?;
        number += 1;
        rest = behind;
    }
    whole_proof(place, rest, number)
}
