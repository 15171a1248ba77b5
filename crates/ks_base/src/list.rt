ghost use Rattle.std.specs.Prelude.{◌≡◌, [], ◌∷◌, ◌++◌, IfOk, OnOk, OnErr};

use crate::Memory;
use std::alloc::Global;
use std::marker::Model;

/// A value that can be made a second time, where there is memory for it.
pub trait TryCopy: Drop {
    /// An equal value.
    fn copy(&self) -> Result<Self, Memory>
        ensures { IfOk result (λ made. made ≡ self.now) };
}

/// A list of rows or values. It grows by one item at a time, and a growth that finds no memory leaves
/// it as it was.
#[derive(Drop)]
pub struct ListOf<T> {
    items: Vec<T>,
}

impl<T> Model for ListOf<T> {
    ghost use Rattle.std.specs.Prelude.{List};

    ghost Value = { List T };

    ghost view = { λ list. list.items.items };
}

impl<T> ListOf<T> {
    /// The empty list, which takes no memory yet.
    pub fn new(alloc: Global) -> ListOf<T>
        ensures { result ≡ [] }
    {
        ListOf {
            items: Vec::new(alloc),
        }
    }

    /// The list of these items, in place.
    pub fn from_vec(items: Vec<T>) -> ListOf<T>
        ensures { result ≡ items.items }
    {
        ListOf { items }
    }

    /// The items in order, in place.
    pub fn into_vec(self) -> Vec<T>
        ensures { result.items ≡ self }
    {
        let ListOf { items } = self;
        items
    }

    /// The items in order.
    pub fn as_slice(&self) -> &[T]
        ensures { result.now ≡ self.now }
    {
        self.items.as_slice()
    }
}

impl<T: Drop> ListOf<T> {
    /// Puts the item behind the others. An item that found no memory is dropped.
    pub fn push(&mut self, item: T) -> Result<(), Memory>
        ensures ok { OnOk result (self.new ≡ self.old ++ item ∷ []) }
        ensures err { OnErr result (self.new ≡ self.old) }
    {
        self.items.push(item)?;
        Ok(())
    }
}

impl<T: TryCopy> ListOf<T> {
    /// An equal list.
    pub fn copy(&self) -> Result<ListOf<T>, Memory>
        ensures { IfOk result (λ made. made ≡ self.now) }
    {
        let items = copied(*self.items.allocator(), self.items.as_slice())?;
        Ok(ListOf { items })
    }
}

fn copied<T: TryCopy>(alloc: Global, items: &[T]) -> Result<Vec<T>, Memory>
    ensures { IfOk result (λ made. made.items ≡ items.now) }
{
    let mut made = Vec::with_capacity(alloc, items.len())?;
    for item in items {
        made.push(item.copy()?)?;
    }
    Ok(made)
}

impl<T: TryCopy> TryCopy for ListOf<T> {
    fn copy(&self) -> Result<ListOf<T>, Memory> {
        ListOf::copy(self)
    }
}
