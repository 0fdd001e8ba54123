//! The pieces of a text between bytes of one kind.
ghost use Rattle.std.specs.Prelude.{◌≡◌, ◌∷◌, option_copied};
ghost use Rattle.std.specs.Iterator.{YieldsFirstRef, item_count};
ghost use Rattle.memchr.specs.Find.{IsFirstByte, is_byte};
ghost use Rattle.csp_model.specs.Ascii.{split_at};
ghost use Rattle.csp_policy.specs.Pieces.{pieces_behind, pieces_left};

use memchr::memchr;

// The pieces of a text between separators, from the first on. A text has one piece more than separators.
#[derive(Drop)]
pub(crate) struct Pieces<'a> {
    rest: Option<&'a [u8]>,
    separator: u8,
    near: usize,
}

#[tactic(auto, unfolding(crate::specs::Pieces::pieces_left))]
impl<'a> Pieces<'a> {
    pub(crate) fn new(text: &'a [u8], separator: u8) -> Pieces<'a>
        ensures { pieces_left result ≡ split_at separator text.now }
    {
        Pieces {
            rest: Some(text),
            separator,
            near: 0,
        }
    }

    // The same, where many pieces may be of a few bytes: these are looked at before a search begins.
    pub(crate) fn new_short(text: &'a [u8], separator: u8) -> Pieces<'a>
        ensures { pieces_left result ≡ split_at separator text.now }
    {
        Pieces {
            rest: Some(text),
            separator,
            near: 4,
        }
    }
}

#[tactic(auto, unfolding(crate::specs::Pieces::pieces_left))]
impl<'a> Iterator for Pieces<'a> {
    type Item = &'a [u8];

    ghost next_gives = { YieldsFirstRef pieces_left };

    ghost remaining = { item_count pieces_left };

    fn next(&mut self) -> Option<&'a [u8]> {
        let text = self.rest?;
        let (piece, rest) = split_piece(text, self.separator, self.near);
        self.rest = rest;
        Some(piece)
    }

    fn size_hint(&self) -> (usize, Option<usize>) {
        (0, None)
    }
}

// Where the first separator is. So many bytes are looked at before a search for it begins.
fn separator_at(text: &[u8], separator: u8, near: usize) -> Option<usize>
    ensures { IsFirstByte (is_byte separator) text.now result }
{
    for at in 0..text.len().min(near) {
        if text[at] == separator {
            return Some(at);
        }
    }
    memchr(separator, text)
}

// The first piece, and the text behind its separator. An empty piece is found without a search, since a file
// may hold nothing else.
fn split_piece(text: &[u8], separator: u8, near: usize) -> (&[u8], Option<&[u8]>)
    ensures { split_at separator text.now
        ≡ result.0.now ∷ pieces_behind separator (option_copied result.1) }
{
    match text.split_first() {
        Some((first, after)) if *first == separator => (&[], Some(after)),
        _ => match separator_at(text, separator, near) {
            None => (text, None),
            Some(at) => (text.split_at(at).0, Some(text.split_at(at + 1).1)),
        },
    }
}
