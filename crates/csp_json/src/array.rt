//! An array of which one item is held at a time.
ghost use Rattle.std.specs.Prelude.{◌≡◌, ◌<◌, [], ◌∷◌, Err, IfOk, IfSome, IsTrue, Some, None, MatchBool, MatchOption, length, option_map};
ghost use Rattle.json.specs.Token.{begin_array, end_array};
ghost use Rattle.csp_json.specs.Arrays as spec;
ghost use Rattle.csp_json.specs.View.{view};

use crate::error::JsonError;
use crate::read::{DEPTH_LIMIT, read};
use crate::value::Value;
use json::{Reader, Scratch, Token};
use std::alloc::Global;
use std::marker::Model;

#[derive(Clone, Copy, Drop)]
pub(crate) enum State {
    // Items may come.
    Open,
    // All has been read, and it was an array.
    Closed,
    // It is no array.
    Failed,
}

/// Reads the items of an array one at a time. Contracts see the tokens that are still to come, and by
/// `items_left` the items that they hold: none where the text is no array, which shows only once its fault is
/// met.
#[derive(Drop)]
pub struct ArrayReader<'a> {
    reader: Reader<'a>,
    state: State,
}

impl<'a> Model for ArrayReader<'a> {
    ghost use Rattle.std.specs.Prelude.{List};
    ghost use Rattle.json.specs.Token.{Token, tokens_code};

    ghost Value = { List Token };

    ghost coded = { tokens_code };

    ghost use Rattle.csp_json.specs.Arrays.{coming};

    ghost view = { λ a. coming a.state a.reader };
}

impl<'a> ArrayReader<'a> {
    /// Begins to read an array. `NotJson` comes at once where the bytes don't begin as one.
    pub fn new(bytes: &'a [u8], scratch: &'a mut Scratch) -> Result<ArrayReader<'a>, JsonError>
        ensures ok { IfOk result (λ reader. spec.items_left reader ≡ spec.array_in bytes.now) }
        ensures not_json { result ≡ Err JsonError.NotJson → spec.array_in bytes.now ≡ None }
    {
        let Ok(text) = simdutf8::compat::from_utf8(bytes) else {
            return Err(JsonError::NotJson);
        };
        let mut reader = Reader::new(text, scratch)?;
        if begins_array(&mut reader) {
            Ok(ArrayReader {
                reader,
                state: State::Open,
            })
        } else {
            Err(JsonError::NotJson)
        }
    }

    /// The next item, or `None` after the last one. `NotJson` comes where the text is no array after all,
    /// also after its last item, and again at each later call.
    pub fn next(&mut self, alloc: Global) -> Result<Option<Value<'a>>, JsonError>
        ensures item { IfOk result (λ item. MatchOption item
            ((spec.items_left self.old ≡ Some []) × (self.new ≡ end_array ∷ []))
            (λ v. spec.items_left self.old ≡ option_map (λ rest. view v ∷ rest) (spec.items_left self.new))) }
        ensures shorter { IfOk result (λ item. IfSome item (λ _. length self.new < length self.old)) }
        ensures not_json { result ≡ Err JsonError.NotJson
            → (spec.items_left self.old ≡ None) × (self.new ≡ []) }
    {
        match self.state {
            State::Open => {}
            State::Closed => return Ok(None),
            State::Failed => return Err(JsonError::NotJson),
        }
        let item = next_item(alloc, &mut self.reader);
        match &item {
            Ok(Some(_)) => {}
            Ok(None) => self.state = State::Closed,
            Err(_) => self.state = State::Failed,
        }
        item
    }

    // Passes the next item. Whether there was one.
    fn pass(&mut self, alloc: Global) -> Result<bool, JsonError>
        ensures passed { IfOk result (λ passed. MatchBool passed
            (spec.IsPassed (spec.items_left self.old) (spec.items_left self.new))
            (spec.items_left self.old ≡ Some [])) }
        ensures shorter { IfOk result (λ passed. IsTrue passed → length self.new < length self.old) }
        ensures not_json { result ≡ Err JsonError.NotJson → spec.items_left self.old ≡ None }
    {
        let item = self.next(alloc)?;
        Ok(item.is_some())
    }

    /// Reads what is left, of which nothing is kept. Whether that is at most so many items.
    pub fn has_at_most(&mut self, alloc: Global, limit: usize) -> Result<bool, JsonError>
        ensures fits { IfOk result (λ fits. spec.fits_in limit (spec.items_left self.old) ≡ Some fits) }
        ensures not_json { result ≡ Err JsonError.NotJson → spec.items_left self.old ≡ None }
    {
        let mut room = limit;
        let mut fits = true;
        'items: while self.pass(alloc)? {
            if room == 0 {
                fits = false;
            } else {
                room -= 1;
            }
        }
        Ok(fits)
    }
}

// Whether an array begins here.
fn begins_array(reader: &mut Reader<'_>) -> bool
    ensures value { result ≡ spec.begins_array reader.old }
    ensures passed { IsTrue result → reader.old ≡ begin_array ∷ reader.new }
{
    matches!(reader.next(), Some(Token::BeginArray))
}

// The next item of the rest of an array, or none where nothing stands after its bracket.
fn next_item<'a>(alloc: Global, reader: &mut Reader<'a>) -> Result<Option<Value<'a>>, JsonError>
    ensures item { IfOk result (λ item. MatchOption item (spec.items_left reader.old ≡ Some [])
        (λ v. spec.items_left reader.old ≡ option_map (λ rest. view v ∷ rest) (spec.items_left reader.new))) }
    ensures shorter { IfOk result (λ item. IfSome item (λ _. length reader.new < length reader.old)) }
    ensures not_json { result ≡ Err JsonError.NotJson → spec.items_left reader.old ≡ None }
{
    if reader.take_end_array() {
        return match reader.next() {
            None => Ok(None),
            Some(_) => Err(JsonError::NotJson),
        };
    }
    let item = read(alloc, reader, DEPTH_LIMIT - 1)?;
    Ok(Some(item))
}
