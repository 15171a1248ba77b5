ghost use Rattle.std.specs.Prelude.{◌≡◌, [], None, Some, IfOk, OnOk, option_map, string_bytes};
ghost use Rattle.std.specs.Option.{option_copied};
ghost use Rattle.ks_json.specs.View.{view};
ghost use Rattle.ks_shape.specs.Places.{entry_at, member_path, names_in, path_at, place_at, place_of, value_at};
ghost use Rattle.ks_shape.specs.Readings.{ReadsBy};

use itoa::Buffer;
use ks_base::{Memory, ShapeFault, ShapeRefusal, Text};
use ks_json::Value;
use std::alloc::Global;

/// Room for most paths, so that their text seldom moves while it grows.
const PATH_ROOM: usize = 64;

/// A place in a JSON document: the path under which it is known, and the value there, if there is one.
#[derive(Drop)]
pub struct Node<'v, 'a> {
    pub(crate) alloc: Global,
    path: Text,
    value: Option<&'v Value<'a>>,
}

/// Puts a name behind a path.
fn push_name(path: &mut String, name: &str) -> Result<(), Memory>
    ensures { OnOk result (string_bytes path.new ≡ member_path (string_bytes path.old) name.now) }
{
    if !path.is_empty() {
        path.push('.')?;
        path.push_str(name)?;
        return Ok(());
    }
    path.push_str(name)?;
    Ok(())
}

impl<'v, 'a> Node<'v, 'a> {
    /// The place with this path where the value stands.
    pub fn known_as(alloc: Global, path: Text, value: &'v Value<'a>) -> Node<'v, 'a>
        ensures { place_of result ≡ record { path = path; value = Some (view value.now) } }
    {
        Node {
            alloc,
            path,
            value: Some(value),
        }
    }

    /// The path of what these names lead to.
    pub(crate) fn path_at(&self, names: &[&str]) -> Result<Text, Memory>
        ensures { IfOk result (λ path. path ≡ path_at (names_in names.now) (place_of self.now)) }
    {
        let mut path = String::with_capacity(self.alloc, PATH_ROOM)?;
        path.push_str(self.path.as_str())?;
        for name in names {
            push_name(&mut path, *name)?;
        }
        Ok(Text::from_string(path))
    }

    /// The value that these names lead to.
    pub(crate) fn value_at(&self, names: &[&str]) -> Result<Option<&'v Value<'a>>, ShapeRefusal>
        ensures { ReadsBy (option_map (λ value. view value.now)) result (value_at (names_in names.now) (place_of self.now)) }
    {
        let mut value = self.value;
        for (passed, name) in names.iter().enumerate() {
            let Some(above) = value else {
                return Ok(None);
            };
            if !above.is_object() {
                let path = self.path_at(&names[..passed])?;
                return Err(ShapeRefusal::Shape(ShapeFault::Kind(path)));
            }
            value = above.get(*name);
        }
        Ok(value)
    }

    /// The place that these names lead to.
    #[tactic(auto, unfolding(crate::specs::Places::place_at))]
    pub fn at(&self, names: &[&str]) -> Result<Node<'v, 'a>, ShapeRefusal>
        ensures { ReadsBy place_of result (place_at (names_in names.now) (place_of self.now)) }
    {
        let value = self.value_at(names)?;
        let path = self.path_at(names)?;
        Ok(Node {
            alloc: self.alloc,
            path,
            value,
        })
    }

    /// The entry at this place, counted from 0, of the list to which these names lead. Its path is that of the
    /// list with the place in brackets, as `users[3]`.
    pub fn entry(
        &self,
        names: &[&str],
        place: usize,
        value: &'v Value<'a>,
    ) -> Result<Node<'v, 'a>, Memory>
        ensures { IfOk result (λ node. place_of node ≡ entry_at (names_in names.now) place (view value.now) (place_of self.now)) }
    {
        let list = self.path_at(names)?;
        let mut path = String::from_str(self.alloc, list.as_str())?;
        path.push('[')?;
        path.push_str(Buffer::new().format(place))?;
        path.push(']')?;
        Ok(Node::known_as(self.alloc, Text::from_string(path), value))
    }

    /// The value at the place.
    pub fn value(&self) -> Option<&'v Value<'a>>
        ensures { option_map (λ value. view value.now) result ≡ (place_of self.now).value }
    {
        self.value
    }
}
