//! JSON values.
ghost use Rattle.std.specs.Prelude.{◌≡◌, [], is_some, map, option_and_then, option_map};
ghost use Rattle.serde_json.specs.Data.{no_members};
ghost use Rattle.serde_json.specs.Find.{as_bool, as_null, as_number, as_object, as_str, as_u64, get, get_member};
ghost use Rattle.csp_json.specs.Json.{array_of};
ghost use Rattle.csp_json.specs.View.{members_view, view};

use crate::number::unsigned;

/// A JSON value. Its texts are lent by the text that it was read from, or by the scratch where they have
/// escapes. Contracts see it as the data that `serde_json` reads.
#[derive(Drop)]
pub enum Value<'a> {
    Null,
    Bool(bool),
    /// A number as it is written.
    Number(&'a str),
    String(&'a str),
    Array(Vec<Value<'a>>),
    /// The members in the order in which they stand. Of several with one name the last one counts.
    Object(Vec<(&'a str, Value<'a>)>),
}

impl<'a> Value<'a> {
    /// Whether it is `null`.
    pub fn is_null(&self) -> bool
        ensures { result ≡ is_some (as_null (view self.now)) }
    {
        matches!(self, Value::Null)
    }

    /// Whether it is an object.
    pub fn is_object(&self) -> bool
        ensures { result ≡ is_some (as_object (view self.now)) }
    {
        matches!(self, Value::Object(_))
    }

    /// A truth value.
    pub fn as_bool(&self) -> Option<bool>
        ensures { result ≡ as_bool (view self.now) }
    {
        match self {
            Value::Bool(holds) => Some(*holds),
            _ => None,
        }
    }

    /// A text.
    pub fn as_str(&self) -> Option<&'a str>
        ensures { option_map (λ s. s.now) result ≡ as_str (view self.now) }
    {
        match self {
            Value::String(text) => Some(*text),
            _ => None,
        }
    }

    /// A whole number of 64 bits that is written with neither a sign, a point nor an exponent.
    pub fn as_u64(&self) -> Option<u64>
        ensures { result ≡ option_and_then as_u64 (as_number (view self.now)) }
    {
        match self {
            Value::Number(text) => unsigned(text),
            _ => None,
        }
    }

    /// The items of an array.
    pub fn as_array(&self) -> Option<&[Value<'a>]>
        ensures { option_map (λ items. map view items.now) result ≡ array_of (view self.now) }
    {
        match self {
            Value::Array(items) => Some(items.as_slice()),
            _ => None,
        }
    }

    /// The member of that name, where this is an object that has one. It is looked for from the end.
    pub fn get(&self, name: &str) -> Option<&Value<'a>>
        ensures { option_map (λ v. view v.now) result ≡ get name.now (view self.now) }
    {
        match self {
            Value::Object(members) => last_named(members, name),
            _ => None,
        }
    }
}

// The last member of that name.
fn last_named<'v, 'a>(members: &'v Vec<(&'a str, Value<'a>)>, name: &str) -> Option<&'v Value<'a>>
    ensures { option_map (λ v. view v.now) result
        ≡ get_member name.now (members_view members.now.items no_members) }
{
    let mut left = members.len();
    while left > 0 {
        left -= 1;
        let member = &members[left];
        if member.0 == name {
            return Some(&member.1);
        }
    }
    None
}
