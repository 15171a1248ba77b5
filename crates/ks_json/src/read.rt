//! A document as a tree, made in one pass over its tokens.
ghost use Rattle.std.specs.Prelude.{◌≡◌, ◌<◌, length, Some, None, Err, IfOk, IfErr, OnOk};
ghost use Rattle.std.specs.Str.{IsUtf8};
ghost use Rattle.json.specs.Json.{value, items, members};
ghost use Rattle.serde_json.specs.Data.{no_members};
ghost use Rattle.serde_json.specs.Read.{of_json, of_items, of_members, converted, read as read_text};
ghost use Rattle.ks_json.specs.View.{view, items_view, members_view};
ghost use Rattle.ks_json.specs.declared.read.ReadFault.TheVariants as fault;

use crate::number::number;
use crate::value::Value;
use json::{Invalid, Reader, Scratch, Token};
use std::alloc::{AllocError, AllocFailed, Global};

/// How deep arrays and objects may nest.
const MAX_DEPTH: usize = 127;

/// Why bytes are not read.
#[derive(Clone, Copy, Drop)]
pub enum ReadFault {
    /// They are no JSON text: not UTF-8, not in the grammar, nested deeper than 127 levels, or with a number that no float is near.
    NotJson,
    /// There was no memory.
    Memory,
}

impl From<Invalid> for ReadFault {
    ghost from_gives = { λ _ made. made ≡ fault.NotJson };

    fn from(_invalid: Invalid) -> ReadFault {
        ReadFault::NotJson
    }
}

impl From<AllocError> for ReadFault {
    ghost from_gives = { λ _ made. made ≡ fault.Memory };

    fn from(_error: AllocError) -> ReadFault {
        ReadFault::Memory
    }
}

impl<T: Drop> From<AllocFailed<T>> for ReadFault {
    ghost from_gives = { λ _ made. made ≡ fault.Memory };

    fn from(_error: AllocFailed<T>) -> ReadFault {
        ReadFault::Memory
    }
}

impl<'a> Value<'a> {
    /// The value that the bytes are. Texts in it are lent from the bytes, or from the scratch where they have escapes.
    pub fn from_slice(
        alloc: Global,
        bytes: &'a [u8],
        scratch: &'a mut Scratch,
    ) -> Result<Value<'a>, ReadFault>
        ensures ok { IfOk result (λ v. IsUtf8 bytes.now × (read_text bytes.now ≡ Some (view v))) }
        ensures err { result ≡ Err fault.NotJson → IsUtf8 bytes.now → read_text bytes.now ≡ None }
    {
        match simdutf8::compat::from_utf8(bytes) {
            Ok(text) => read_all(alloc, text, scratch),
            Err(_) => Err(ReadFault::NotJson),
        }
    }
}

fn read_all<'a>(
    alloc: Global,
    text: &'a str,
    scratch: &'a mut Scratch,
) -> Result<Value<'a>, ReadFault>
    ensures ok { IfOk result (λ v. read_text text.now ≡ Some (view v)) }
    ensures err { result ≡ Err fault.NotJson → read_text text.now ≡ None }
{
    let mut reader = Reader::new(text, scratch)?;
    let value = read(alloc, &mut reader, MAX_DEPTH)?;
    if reader.next().is_some() {
        return Err(ReadFault::NotJson);
    }
    Ok(value)
}

/// The next value of the reader. Arrays and objects may nest so deep.
#[cycle(read)]
fn read<'a>(alloc: Global, reader: &mut Reader<'a>, depth: usize) -> Result<Value<'a>, ReadFault>
    ensures ok { IfOk result (λ v. converted of_json (value depth reader.old) ≡ Some (view v, reader.new)) }
    ensures shorter { OnOk result (length reader.new < length reader.old) }
    ensures err { result ≡ Err fault.NotJson → converted of_json (value depth reader.old) ≡ None }
{
    let token = reader.next().ok_or(ReadFault::NotJson)?;
    match token {
        Token::String(text) => Ok(Value::String(text)),
        Token::Number(text) => match number(text) {
            Some(number) => Ok(Value::Number(number)),
            None => Err(ReadFault::NotJson),
        },
        Token::Bool(holds) => Ok(Value::Bool(holds)),
        Token::Null => Ok(Value::Null),
        Token::EndObject | Token::EndArray | Token::Key(_) | Token::Bad => Err(ReadFault::NotJson),
        Token::BeginArray => {
            if depth == 0 {
                return Err(ReadFault::NotJson);
            }
            Ok(Value::Array(read_items(alloc, reader, depth - 1)?))
        }
        Token::BeginObject => {
            if depth == 0 {
                return Err(ReadFault::NotJson);
            }
            Ok(Value::Object(read_members(alloc, reader, depth - 1)?))
        }
    }
}

/// The items up to the end of an array.
#[cycle(read)]
fn read_items<'a>(
    alloc: Global,
    reader: &mut Reader<'a>,
    depth: usize,
) -> Result<Vec<Value<'a>>, ReadFault>
    ensures ok { IfOk result (λ v. converted of_items (items (value depth) (length reader.old) reader.old) ≡ Some (items_view v.items, reader.new)) }
    ensures shorter { OnOk result (length reader.new < length reader.old) }
    ensures err { result ≡ Err fault.NotJson → converted of_items (items (value depth) (length reader.old) reader.old) ≡ None }
{
    let mut found = Vec::new(alloc);
    'items: while !reader.take_end_array() {
        let item = read(alloc, reader, depth)?;
        found.push(item)?;
    }
    Ok(found)
}

/// The members up to the end of an object.
#[cycle(read)]
fn read_members<'a>(
    alloc: Global,
    reader: &mut Reader<'a>,
    depth: usize,
) -> Result<Vec<(&'a str, Value<'a>)>, ReadFault>
    ensures ok { IfOk result (λ v. converted (λ ms. of_members ms no_members) (members (value depth) (length reader.old) reader.old) ≡ Some (members_view v.items, reader.new)) }
    ensures shorter { OnOk result (length reader.new < length reader.old) }
    ensures err { result ≡ Err fault.NotJson → converted (λ ms. of_members ms no_members) (members (value depth) (length reader.old) reader.old) ≡ None }
{
    let mut found = Vec::new(alloc);
    'members: while let Some(name) = reader.next_key()? {
        let member = read(alloc, reader, depth)?;
        found.push((name, member))?;
    }
    Ok(found)
}
