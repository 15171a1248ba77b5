ghost use Rattle.std.specs.Prelude.{◌≡◌, is_some, option_map, option_and_then};
ghost use Rattle.serde_json.specs.Find.{as_array, as_bool, as_null, as_number, as_object, as_str, as_u64, get, get_member};
ghost use Rattle.ks_json.specs.View.{items_view, members_view, view};

use serde_json::Number;

/// A JSON value. Its texts are lent from the document, and its members stand in the order of the document: of those of one name the last
/// counts.
#[derive(Drop)]
pub enum Value<'a> {
    Null,
    Bool(bool),
    Number(Number),
    String(&'a str),
    Array(Vec<Value<'a>>),
    Object(Vec<(&'a str, Value<'a>)>),
}

/// The last of the members of this name.
fn last_of<'v, 'a>(members: &'v Vec<(&'a str, Value<'a>)>, name: &str) -> Option<&'v Value<'a>>
    ensures { option_map (λ v. view v.now) result ≡ get_member name.now (members_view members.now.items) }
{
    let mut left = members.len();
    while left > 0 {
        left -= 1;
        let member = &members[left];
        if member.0 == name {
            return Some(&member.1);
        }
    }
    None
}

impl<'a> Value<'a> {
    /// Whether it is null.
    pub fn is_null(&self) -> bool
        ensures { result ≡ is_some (as_null (view self.now)) }
    {
        if let Value::Null = self { true } else { false }
    }

    /// The truth that it is.
    pub fn as_bool(&self) -> Option<bool>
        ensures { result ≡ as_bool (view self.now) }
    {
        match self {
            Value::Bool(holds) => Some(*holds),
            _ => None,
        }
    }

    /// The number that it is, where it is whole and from 0 to 2^64 - 1.
    pub fn as_u64(&self) -> Option<u64>
        ensures { result ≡ option_and_then as_u64 (as_number (view self.now)) }
    {
        match self {
            Value::Number(number) => number.as_u64(),
            _ => None,
        }
    }

    /// The text that it is.
    pub fn as_str(&self) -> Option<&'a str>
        ensures { option_map (λ s. s.now) result ≡ as_str (view self.now) }
    {
        match self {
            Value::String(text) => Some(*text),
            _ => None,
        }
    }

    /// The items of the array that it is.
    pub fn as_array(&self) -> Option<&Vec<Value<'a>>>
        ensures { option_map (λ v. items_view v.now.items) result ≡ as_array (view self.now) }
    {
        match self {
            Value::Array(items) => Some(items),
            _ => None,
        }
    }

    /// Whether it is an object.
    pub fn is_object(&self) -> bool
        ensures { result ≡ is_some (as_object (view self.now)) }
    {
        if let Value::Object(_) = self {
            true
        } else {
            false
        }
    }

    /// The value of the member of this name, where it is an object that has one.
    pub fn get(&self, name: &str) -> Option<&Value<'a>>
        ensures { option_map (λ v. view v.now) result ≡ get name.now (view self.now) }
    {
        match self {
            Value::Object(members) => last_of(members, name),
            _ => None,
        }
    }
}
