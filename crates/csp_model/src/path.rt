//! Paths, held as their canonical text (RFC 3986, sections 2.1 and 3.3).
ghost use Rattle.std.specs.Prelude.{◌≡◌, ◌≢◌, ◌↔◌, ◌==◌, IfOk, OnErr, OnOk, IsTrue, List as Items, ℕ, [], ◌∷◌, ◌++◌, length, not, string_bytes};
ghost use Rattle.std.specs.List.{list_all};
ghost use Rattle.std.specs.Cmp.Lexicographic.{pointwise};
ghost use Rattle.std.specs.Cmp.Rules.{comparing};
ghost use Rattle.std.proofs.Common.{rules};
ghost use Rattle.percent_encoding.specs.Percent as percent;
ghost use Rattle.csp_model.specs.Ascii.{code};
ghost use Rattle.csp_model.specs.DecideEnds as ends;
ghost use Rattle.csp_model.specs.Paths as spec;
ghost use Rattle.csp_model.specs.Validity.{is_piece};

use crate::memory::Memory;
use percent_encoding::{AsciiSet, NON_ALPHANUMERIC, ascii_set, percent_decode, percent_encode};
use std::alloc::Global;
use std::marker::Model;

/// What a piece of a path is written with escapes for: every byte but letters, digits, `-`, `.`, `_` and `~`,
/// the unreserved characters of RFC 3986, section 2.3.
pub const ESCAPED: AsciiSet = ascii_set!(
    NON_ALPHANUMERIC
        .remove(b'-')
        .remove(b'.')
        .remove(b'_')
        .remove(b'~')
);

/// A path, seen as the list of its pieces between slashes, percent-decoded. It is held as a text: `/` and the
/// piece for each piece, and one more `/`. In a piece every byte but letters, digits, `-`, `.`, `_` and `~` is
/// `%` and two upper-case hexadecimal digits. So paths are equal where their texts are, and one begins with
/// the pieces of another where its text begins with the other's.
#[derive(Debug, Drop)]
pub struct Path {
    text: String,
}

impl Model for Path {
    ghost use Rattle.std.specs.Prelude as std_words;

    ghost Value = { std_words.List (std_words.List std_words.ℕ) };

    ghost use Rattle.std.specs.Prelude.{◌≡◌, string_bytes};
    ghost use Rattle.csp_model.specs.Paths.{front_pieces, front_text};

    ghost view = { λ path. front_pieces (string_bytes path.text) };

    ghost invariant = { λ path. string_bytes path.text ≡ front_text (front_pieces (string_bytes path.text)) };
}

impl Path {
    /// The path of no pieces.
    pub fn new(alloc: Global) -> Result<Path, Memory>
        ensures { IfOk result (λ made. made ≡ []) }
    {
        Path::with_room(alloc, 0)
    }

    // The path of no pieces, with room for those of a text of this length.
    fn with_room(alloc: Global, room: usize) -> Result<Path, Memory>
        ensures { IfOk result (λ made. made ≡ []) }
    {
        let mut text = String::with_capacity(alloc, room.saturating_add(2))?;
        text.push('/')?;
        Ok(Path { text })
    }

    /// The path whose text behind its first `/` is this. Its pieces stand between slashes, and in a piece `%`
    /// and two hexadecimal digits are read as the byte that they spell. The empty text is one empty piece.
    pub fn read(alloc: Global, text: &[u8]) -> Result<Path, Memory>
        ensures { IfOk result (λ made. made ≡ spec.pieces_of text.now) }
    {
        let mut path = Path::with_room(alloc, text.len())?;
        for piece in text.split(|b| *b == b'/') {
            let decoded = percent_decode(piece).into_cow(alloc)?;
            path.push(&decoded)?;
        }
        Ok(path)
    }

    // Another path of the same pieces.
    pub(crate) fn copied(&self, alloc: Global) -> Result<Path, Memory>
        ensures { IfOk result (λ made. made ≡ self.now) }
    {
        Ok(Path {
            text: String::from_str(alloc, self.text.as_str())?,
        })
    }

    /// Adds a piece at the end. Where memory is wanting the path stays as it is.
    pub fn push(&mut self, piece: &[u8]) -> Result<(), Memory>
        ensures ok { OnOk result (self.new ≡ self.old ++ piece.now ∷ []) }
        ensures err { OnErr result (self.new ≡ self.old) }
    {
        push_piece(&mut self.text, piece)
    }

    /// The path as it is written: `/` and the piece for each piece, each with its escapes.
    pub fn as_str(&self) -> &str
        ensures { result.now ≡ spec.path_text self.now }
    {
        &self.text[..self.text.len() - 1]
    }

    /// The path as it is written, and one more `/`. The path begins with the pieces of another exactly where
    /// this text begins with that of the other.
    pub fn as_front(&self) -> &str
        ensures text { result.now ≡ spec.front_text self.now }
        ensures pieces { spec.front_pieces result.now ≡ self.now }
    {
        self.text.as_str()
    }

    /// How many pieces there are.
    pub fn len(&self) -> usize
        ensures { result ≡ length self.now }
    {
        self.as_str()
            .as_bytes()
            .iter()
            .filter(|b| **b == b'/')
            .count()
    }

    /// Whether there is no piece.
    pub fn is_empty(&self) -> bool
        ensures { IsTrue result ↔ (self.now ≡ []) }
    {
        self.text.len() == 1
    }

    /// Whether `.` or `..` is a piece, as in no path of a URL (RFC 3986, section 5.2.4).
    pub fn has_dot_segment(&self) -> bool
        ensures value { result ≡ spec.has_dot_segment self.now }
        ensures pieces { list_all is_piece self.now ≡ not result }
    {
        self.text
            .as_bytes()
            .split(|b| *b == b'/')
            .any(|segment| is_dot_segment(segment))
    }

    /// Whether the path begins with the pieces of another. Every path begins with its own.
    pub fn begins_with(&self, front: &Path) -> bool
        ensures value { result ≡ ends.begins_with self.now front.now }
        ensures beyond { IsTrue result ↔ ((rest : Items (Items ℕ)) × (self.now ≡ front.now ++ rest)) }
    {
        self.text.as_bytes().starts_with(front.text.as_bytes())
    }

    /// Whether the path begins with the pieces of another and has more of them.
    pub fn goes_beyond(&self, front: &Path) -> bool
        ensures value { result ≡ ends.goes_beyond self.now front.now }
        ensures beyond { IsTrue result
            ↔ ((rest : Items (Items ℕ)) × (rest ≢ []) × (self.now ≡ front.now ++ rest)) }
    {
        front.text.len() < self.text.len() && self.begins_with(front)
    }
}

impl PartialEq for Path {
    ghost eq = { pointwise (pointwise ◌==◌) };

    ghost laws = { Prim.search (comparing, rules) };

    fn eq(&self, other: &Path) -> bool {
        self.text == other.text
    }
}

impl Eq for Path {
    ghost laws = { Prim.search (comparing, rules) };
}

fn is_dot_segment(segment: &[u8]) -> bool
    ensures { result ≡ spec.is_dot_segment segment.now }
{
    matches!(segment, b"." | b"..")
}

// Adds a piece with its escapes, and a slash behind it.
fn push_piece(text: &mut String, piece: &[u8]) -> Result<(), Memory>
    ensures ok { OnOk result (string_bytes text.new
        ≡ string_bytes text.old ++ (percent.percent_encode ESCAPED piece.now ++ code "/" ∷ [])) }
    ensures err { OnErr result (string_bytes text.new ≡ string_bytes text.old) }
{
    let before = text.len();
    percent_encode(piece, ESCAPED).append_to(text)?;
    let ended = text.push('/');
    if ended.is_err() {
        text.truncate(before);
    }
    Ok(ended?)
}
