//! The directives of serialized policies (Content Security Policy Level 3, section 2.2.1).
ghost use Rattle.std.specs.Prelude.{◌≡◌, ℕ, ◌-◌, IfOk, OnOk, IfSome, MatchOption, None, Some, true, not, ◌||◌, ◌++◌, ◌∷◌, [], if◌then◌else◌, length, map, take, List as Items};
ghost use Rattle.csp_model.specs.Ascii.{is_ascii_text, words};
ghost use Rattle.csp_model.specs.Policies as spec;
ghost use Rattle.csp_model.specs.Reading.{source_of};
ghost use Rattle.csp_policy.specs.Fates as fates;
ghost use Rattle.csp_policy.specs.Names.{KnowsNames};
ghost use Rattle.csp_policy.specs.Room.{directive_with, shortened, kept_of, AreShortened};
ghost use Rattle.csp_policy.specs.Standings.{standing_said, IsAsciiStanding};
ghost use Rattle.csp_policy.specs.Types.{Standing as StandingValue, Reason as ReasonValue};

use crate::caseless_name::CaselessName;
use crate::fate::Reason;
use crate::pieces::Pieces;
use crate::words::{is_ascii, next_word};
use csp_model::{Directive, List, Memory, Source, Text};
use csp_source::read_source;
use std::alloc::Global;
use std::collections::BTreeSet;

// The first `room` words of a text, and the sources that they stand for.
fn read_tokens(
    alloc: Global,
    text: &[u8],
    room: usize,
) -> Result<(List<Text>, List<Source>), Memory>
    requires { is_ascii_text text.now ≡ true }
    ensures tokens { IfOk result (λ made. made.0 ≡ take room (words text.now)) }
    ensures sources { IfOk result (λ made. made.1 ≡ map source_of (take room (words text.now))) }
{
    let mut tokens = List::new(alloc);
    let mut sources = List::new(alloc);
    let mut rest = text;
    while tokens.len() < room {
        let Some((token, after)) = next_word(rest) else {
            break;
        };
        tokens.push(Text::from_ascii(alloc, token)?)?;
        sources.push(read_source(alloc, token)?)?;
        rest = after;
    }
    Ok((tokens, sources))
}

// The directive of this name, whose tokens are the first words of a text, as many as there is room for.
fn read_directive(
    alloc: Global,
    name: &[u8],
    text: &[u8],
    room: &mut usize,
) -> Result<Directive, Memory>
    requires name { is_ascii_text name.now ≡ true }
    requires text { is_ascii_text text.now ≡ true }
    ensures made { IfOk result
        (λ made. made ≡ shortened room.old (directive_with name.now (words text.now))) }
    ensures left { OnOk result (room.new ≡ room.old - length (words text.now)) }
{
    let (tokens, sources) = read_tokens(alloc, text, *room)?;
    *room -= tokens.len();
    Ok(Directive {
        name: Text::from_ascii_lowercase(alloc, name)?,
        tokens,
        sources,
    })
}

// The name of a piece's directive, and the text behind it. None where the piece has no word, or a byte
// outside ASCII. An empty piece is passed at once: a file may hold nothing else.
#[tactic(auto, unfolding(csp_model::specs::Policies::directive_of))]
fn split_name(piece: &[u8]) -> Option<(&[u8], &[u8])>
    ensures directive { MatchOption result (spec.directive_of piece.now ≡ None)
        (λ found. spec.directive_of piece.now ≡ Some (directive_with found.0.now (words found.1.now))) }
    ensures ascii_name { IfSome result (λ found. is_ascii_text found.0.now ≡ true) }
    ensures ascii_text { IfSome result (λ found. is_ascii_text found.1.now ≡ true) }
{
    if piece.is_empty() {
        return None;
    }
    match next_word(piece) {
        Some(found) if is_ascii(piece) => Some(found),
        _ => None,
    }
}

// Whether a meta element may carry the directive of this name.
fn is_for_meta(name: CaselessName<'_>) -> bool
    ensures { result ≡ spec.is_for_meta (directive_with name.entry.bytes.now []) }
{
    !(name
        == CaselessName {
            bytes: b"report-uri",
        }
        || name
            == CaselessName {
                bytes: b"frame-ancestors",
            }
        || name == CaselessName { bytes: b"sandbox" })
}

// Whether the directive of this name stays, where a meta element may deliver the policy.
fn is_kept(meta: bool, name: CaselessName<'_>) -> bool
    ensures { result ≡ (not meta || spec.is_for_meta (directive_with name.entry.bytes.now [])) }
{
    !meta || is_for_meta(name)
}

// What becomes of a piece, behind those before it.
#[derive(Clone, Copy, Debug)]
pub(crate) enum Standing<'a> {
    Empty,
    Dropped { reason: Reason },
    // The name of a directive, and the text behind it.
    Kept { name: &'a [u8], text: &'a [u8] },
}

// What becomes of a piece without a directive.
fn without_directive<'a>(piece: &[u8]) -> Standing<'a>
    ensures { result ≡ (if is_ascii_text piece.now then StandingValue.Empty
        else StandingValue.Dropped ReasonValue.NotAscii) }
{
    if is_ascii(piece) {
        Standing::Empty
    } else {
        Standing::Dropped {
            reason: Reason::NotAscii,
        }
    }
}

// What becomes of a piece behind those whose names were seen. Its own name is seen too from then on.
pub(crate) fn stand<'a>(
    seen: &mut BTreeSet<CaselessName<'a>>,
    meta: bool,
    piece: &'a [u8],
) -> Result<Standing<'a>, Memory>
    ensures fate { IfOk result (λ standing. (before : Items (Items ℕ)) → KnowsNames seen.old before
        → standing_said standing ≡ fates.fate_of meta before piece.now) }
    ensures seen { OnOk result ((before : Items (Items ℕ)) → KnowsNames seen.old before
        → KnowsNames seen.new (before ++ piece.now ∷ [])) }
    ensures ascii { IfOk result IsAsciiStanding }
{
    let Some((name, text)) = split_name(piece) else {
        return Ok(without_directive(piece));
    };
    let name = CaselessName { bytes: name };
    let is_first = seen.insert(name)?;
    if !is_first {
        return Ok(Standing::Dropped {
            reason: Reason::Duplicate,
        });
    }
    if !is_kept(meta, name) {
        return Ok(Standing::Dropped {
            reason: Reason::NotInMeta,
        });
    }
    Ok(Standing::Kept {
        name: name.bytes,
        text,
    })
}

// The directive of this name and all words of a text.
pub(crate) fn read_whole(alloc: Global, name: &[u8], text: &[u8]) -> Result<Directive, Memory>
    requires name { is_ascii_text name.now ≡ true }
    requires text { is_ascii_text text.now ≡ true }
    ensures { IfOk result (λ made. made ≡ directive_with name.now (words text.now)) }
{
    let mut room = text.len() + 1;
    read_directive(alloc, name, text, &mut room)
}

// The directives of a serialized policy, the first of each name, without those that a meta element loses.
// There is room for so many tokens; a token past that is not kept.
pub(crate) fn read_directives(
    alloc: Global,
    value: &[u8],
    meta: bool,
    room: &mut usize,
) -> Result<List<Directive>, Memory>
    ensures { IfOk result
        (λ made. AreShortened (kept_of meta (spec.directives_of value.now)) made room.old room.new) }
{
    let mut seen = BTreeSet::new(alloc);
    let mut made = Vec::new(alloc);
    for piece in Pieces::new_short(value, b';') {
        match stand(&mut seen, meta, piece)? {
            Standing::Empty => {}
            Standing::Dropped { .. } => {}
            Standing::Kept { name, text } => made.push(read_directive(alloc, name, text, room)?)?,
        }
    }
    Ok(List::from_vec(made))
}
