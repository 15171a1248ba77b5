//! Values behind a pointer.
ghost use Rattle.std.specs.Prelude.{◌≡◌, ◌≤◌, find, length, option_copied, IfOk, OnErr, OnOk};
ghost use Rattle.std.specs.Borrow.{Lends, sem};
ghost use Rattle.std.specs.List.{insert};

use crate::{Memory, Row, Test};
use std::alloc::Global;
use std::marker::Model;

/// A value behind a pointer, so that what holds it is small to keep and to hand on. Contracts see the value.
#[derive(Drop)]
pub struct Boxed<T> {
    held: Box<T>,
}

impl<T> Model for Boxed<T> {
    ghost Value = { T };

    ghost coded = { T.code };

    ghost view = { λ boxed. boxed.held.value };
}

impl<T> Boxed<T> {
    ghost use Rattle.ks_base.specs.contracts.boxed.Boxed.{the_row};

    /// The value.
    pub fn get(&self) -> &T
        ensures { result.now ≡ self.now }
    {
        &self.held
    }

    /// The value, to be changed in its place.
    pub fn get_mut(&mut self) -> &mut T
        ensures* writes_back { sem 𝓛 (Lends (the_row T.row) T.row self.entry result (λ value. value)) }
        ensures value { result.now ≡ self.old }
    {
        &mut self.held
    }

    /// The value, out of its place.
    pub fn into_inner(self) -> T
        ensures { result ≡ self }
    {
        let Boxed { held } = self;
        Box::into_inner(held)
    }

    /// The first of these values that passes the test.
    pub fn first<'a, S: Test<T>>(values: &'a [Boxed<T>], test: &S) -> Option<&'a Boxed<T>>
        ensures { option_copied result ≡ find (S.test test.now) values.now }
    {
        values.iter().find(|value| test.test(value.get()))
    }
}

impl<T: Drop> Boxed<T> {
    /// Puts a value behind a pointer, and that into this place of the list. One that found no memory is dropped.
    pub fn insert(values: &mut Vec<Boxed<T>>, at: usize, value: T) -> Result<(), Memory>
        requires { at ≤ length values.old.items }
        ensures ok { OnOk result (values.new.items ≡ insert values.old.items at value) }
        ensures err { OnErr result (values.new.items ≡ values.old.items) }
    {
        let value = Boxed::new(*values.allocator(), value)?;
        values.insert(at, value)?;
        Ok(())
    }

    /// Puts the value behind a pointer. One that found no memory is dropped.
    pub fn new(alloc: Global, value: T) -> Result<Boxed<T>, Memory>
        ensures { IfOk result (λ boxed. boxed ≡ value) }
    {
        Ok(Boxed {
            held: Box::new(alloc, value)?,
        })
    }

    /// Puts another value in the place of this one. It takes no memory.
    pub fn set(&mut self, value: T)
        ensures { self.new ≡ value }
    {
        *self.held = value;
    }
}

impl<T> From<Box<T>> for Boxed<T> {
    ghost use Rattle.std.specs.Prelude.{◌≡◌};

    ghost from_gives = { λ held boxed. boxed ≡ held.value };

    fn from(held: Box<T>) -> Boxed<T> {
        Boxed { held }
    }
}

impl<R: Row> Row for Boxed<R> {
    ghost key = { R.key };

    fn id(&self) -> &crate::Id {
        self.get().id()
    }
}
