//! Lines of which endings that come again stand once.
ghost use Rattle.std.specs.Prelude.{◌≡◌, ◌<◌, ◌++◌, [], OnOk, OnErr, IfOk, IfSome, length, take, drop};
ghost use Rattle.std.specs.List.{All};
ghost use Rattle.std.specs.List.{flat_map};
ghost use Rattle.csp_desk.specs.Texts.{report_line};
ghost use Rattle.csp_desk.specs.Weaves.{IsWithin, ending_at, strand_text};

use crate::ending::{Ending, place_of};
use crate::front::push_front;
use crate::texts::push_line;
use csp_model::{Memory, Violation};
use std::alloc::Global;
use std::marker::Model;

// A part of the own bytes, and an ending behind it.
#[derive(Clone, Copy, Debug)]
struct Strand {
    start: usize,
    end: usize,
    ending: Option<usize>,
}

/// Lines of reports, as one text. An ending that many of them have stands once.
#[derive(Debug, Drop)]
pub(crate) struct Weave {
    own: Vec<u8>,
    endings: Vec<Ending>,
    strands: Vec<Strand>,
    // Where the ending of the last line stands that has one.
    last: usize,
}

impl Model for Weave {
    ghost use Rattle.std.specs.Prelude as std_words;
    ghost use Rattle.std.specs.Prelude.{ℕ};
    ghost use Rattle.std.specs.List.{flat_map, All};
    ghost use Rattle.csp_desk.specs.Weaves.{IsWithin, strand_text};

    ghost Value = { std_words.List ℕ };

    ghost view = { λ a. flat_map (strand_text a.own.items a.endings.items) a.strands.items };

    ghost invariant = { λ a. All (IsWithin (std_words.length a.own.items)
        (std_words.length a.endings.items)) a.strands.items };
}

impl Weave {
    // No line. It keeps the allocator, and takes no memory.
    pub(crate) fn new(alloc: Global) -> Weave
        ensures { result ≡ [] }
    {
        Weave {
            own: Vec::new(alloc),
            endings: Vec::new(alloc),
            strands: Vec::new(alloc),
            last: 0,
        }
    }

    // Adds the line of a violation. Where there is no memory, the text is as it was.
    pub(crate) fn push(&mut self, alloc: Global, violation: &Violation) -> Result<(), Memory>
        ensures ok { OnOk result (self.new ≡ self.old ++ report_line violation.now) }
        ensures err { OnErr result (self.new ≡ self.old) }
    {
        self.strands.reserve(1)?;
        let start = self.own.len();
        let ending = push_parts(
            alloc,
            &mut self.own,
            &mut self.endings,
            self.last,
            violation,
        )?;
        let end = self.own.len();
        self.strands.push(Strand { start, end, ending })?;
        self.last = ending.unwrap_or(self.last);
        Ok(())
    }

    // Its pieces, one after the other.
    pub(crate) fn pieces(&self, alloc: Global) -> Result<Vec<&[u8]>, Memory>
        ensures { IfOk result (λ pieces. flat_map (λ piece. piece.now) pieces.items ≡ self.now) }
    {
        pieces_of(
            alloc,
            self.own.as_slice(),
            self.endings.as_slice(),
            self.strands.as_slice(),
        )
    }
}

// Adds what the line of a violation has of its own, and its ending if it is a new one. Answers where the
// ending stands, if it isn't the line's own.
fn push_parts(
    alloc: Global,
    own: &mut Vec<u8>,
    endings: &mut Vec<Ending>,
    last: usize,
    violation: &Violation,
) -> Result<Option<usize>, Memory>
    ensures own { take (length own.old.items) own.new.items ≡ own.old.items }
    ensures endings { take (length endings.old.items) endings.new.items ≡ endings.old.items }
    ensures ending { IfOk result (λ ending. IfSome ending (λ place. place < length endings.new.items)) }
    ensures line { IfOk result (λ ending. drop (length own.old.items) own.new.items
        ++ ending_at endings.new.items ending ≡ report_line violation.now) }
{
    if !violation.sample.as_str().is_empty() {
        push_line(alloc, own, violation)?;
        return Ok(None);
    }
    let place = place_of(alloc, endings, last, violation)?;
    push_front(alloc, own, violation.blocked_uri.as_str())?;
    Ok(Some(place))
}

// The bytes of an ending, or none.
fn ending_slice(endings: &[Ending], ending: Option<usize>) -> &[u8]
    requires { IfSome ending (λ place. place < length endings.now) }
    ensures { result.now ≡ ending_at endings.now ending }
{
    match ending {
        Some(place) => endings[place].as_slice(),
        None => &[],
    }
}

// Adds the pieces of a strand.
fn push_strand<'a>(
    pieces: &mut Vec<&'a [u8]>,
    own: &'a [u8],
    endings: &'a [Ending],
    strand: Strand,
) -> Result<(), Memory>
    requires { IsWithin (length own.now) (length endings.now) strand }
    ensures { OnOk result (flat_map (λ piece. piece.now) pieces.new.items
        ≡ flat_map (λ piece. piece.now) pieces.old.items ++ strand_text own.now endings.now strand) }
{
    pieces.push(&own[strand.start..strand.end])?;
    pieces.push(ending_slice(endings, strand.ending))?;
    Ok(())
}

// The pieces of all strands.
fn pieces_of<'a>(
    alloc: Global,
    own: &'a [u8],
    endings: &'a [Ending],
    strands: &[Strand],
) -> Result<Vec<&'a [u8]>, Memory>
    requires { All (IsWithin (length own.now) (length endings.now)) strands.now }
    ensures { IfOk result (λ pieces. flat_map (λ piece. piece.now) pieces.items
        ≡ flat_map (strand_text own.now endings.now) strands.now) }
{
    let mut pieces = Vec::new(alloc);
    for strand in strands {
        push_strand(&mut pieces, own, endings, *strand)?;
    }
    Ok(pieces)
}
