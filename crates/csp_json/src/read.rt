//! From the tokens of a text to values, in one pass.
ghost use Rattle.std.specs.Prelude.{◌≡◌, ◌<◌, Err, IfOk, OnOk, Some, None, length};
ghost use Rattle.json.specs.Json.{items, members, value};
ghost use Rattle.serde_json.specs.Data.{no_members};
ghost use Rattle.serde_json.specs.Read.{converted, of_items, of_json, of_members};
ghost use Rattle.csp_json.specs.Json.{json_of};
ghost use Rattle.csp_json.specs.View.{items_view, members_view, view};

use crate::error::JsonError;
use crate::number::is_in_range;
use crate::value::Value;
use json::{Reader, Scratch, Token};
use std::alloc::Global;

// How deep arrays and objects may nest, as in `serde_json`.
pub(crate) const DEPTH_LIMIT: usize = 127;

impl<'a> Value<'a> {
    /// The value that bytes are.
    pub fn from_slice(
        alloc: Global,
        bytes: &'a [u8],
        scratch: &'a mut Scratch,
    ) -> Result<Value<'a>, JsonError>
        ensures ok { IfOk result (λ v. json_of bytes.now ≡ Some (view v)) }
        ensures not_json { result ≡ Err JsonError.NotJson → json_of bytes.now ≡ None }
    {
        let Ok(text) = simdutf8::compat::from_utf8(bytes) else {
            return Err(JsonError::NotJson);
        };
        let mut reader = Reader::new(text, scratch)?;
        let value = read(alloc, &mut reader, DEPTH_LIMIT)?;
        match reader.next() {
            None => Ok(value),
            Some(_) => Err(JsonError::NotJson),
        }
    }
}

// The next value, in which arrays and objects may nest so deep.
#[cycle(read)]
pub(crate) fn read<'a>(
    alloc: Global,
    reader: &mut Reader<'a>,
    depth: usize,
) -> Result<Value<'a>, JsonError>
    ensures ok { IfOk result
        (λ v. converted of_json (value depth reader.old) ≡ Some (view v, reader.new)) }
    ensures shorter { OnOk result (length reader.new < length reader.old) }
    ensures not_json { result ≡ Err JsonError.NotJson
        → converted of_json (value depth reader.old) ≡ None }
{
    let token = reader.next().ok_or(JsonError::NotJson)?;
    match token {
        Token::String(text) => Ok(Value::String(text)),
        Token::Number(text) => {
            if is_in_range(text) {
                Ok(Value::Number(text))
            } else {
                Err(JsonError::NotJson)
            }
        }
        Token::Bool(holds) => Ok(Value::Bool(holds)),
        Token::Null => Ok(Value::Null),
        Token::EndObject | Token::EndArray | Token::Key(_) | Token::Bad => Err(JsonError::NotJson),
        Token::BeginArray => {
            if depth == 0 {
                return Err(JsonError::NotJson);
            }
            Ok(Value::Array(read_items(alloc, reader, depth - 1)?))
        }
        Token::BeginObject => {
            if depth == 0 {
                return Err(JsonError::NotJson);
            }
            Ok(Value::Object(read_members(alloc, reader, depth - 1)?))
        }
    }
}

// The items of an array, after its bracket.
#[cycle(read)]
fn read_items<'a>(
    alloc: Global,
    reader: &mut Reader<'a>,
    depth: usize,
) -> Result<Vec<Value<'a>>, JsonError>
    ensures ok { IfOk result
        (λ v. converted of_items (items (value depth) (length reader.old) reader.old)
        ≡ Some (items_view v.items, reader.new)) }
    ensures shorter { OnOk result (length reader.new < length reader.old) }
    ensures not_json { result ≡ Err JsonError.NotJson
        → converted of_items (items (value depth) (length reader.old) reader.old) ≡ None }
{
    let mut found = Vec::new(alloc);
    'items: while !reader.take_end_array() {
        let item = read(alloc, reader, depth)?;
        found.push(item)?;
    }
    Ok(found)
}

// The members of an object, after its brace.
#[cycle(read)]
fn read_members<'a>(
    alloc: Global,
    reader: &mut Reader<'a>,
    depth: usize,
) -> Result<Vec<(&'a str, Value<'a>)>, JsonError>
    ensures ok { IfOk result
        (λ v. converted (λ ms. of_members ms no_members)
        (members (value depth) (length reader.old) reader.old)
        ≡ Some (members_view v.items no_members, reader.new)) }
    ensures shorter { OnOk result (length reader.new < length reader.old) }
    ensures not_json { result ≡ Err JsonError.NotJson
        → converted (λ ms. of_members ms no_members)
        (members (value depth) (length reader.old) reader.old) ≡ None }
{
    let mut found = Vec::new(alloc);
    'members: while let Some(name) = reader.next_key()? {
        let member = read(alloc, reader, depth)?;
        found.push((name, member))?;
    }
    Ok(found)
}
