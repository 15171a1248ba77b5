//! Values that many hold.
ghost use Rattle.std.specs.Prelude.{◌≡◌, IfOk};

use ks_base::Memory;
use std::alloc::Global;
use std::marker::Model;
use std::sync::Arc;

/// A value that many hold, and that none of them changes. Contracts see the value.
#[derive(Drop)]
pub(crate) struct Shared<T> {
    held: Arc<T>,
}

impl<T> Model for Shared<T> {
    ghost use Rattle.std.specs.Arc.{arc_value};

    ghost Value = { T };

    ghost coded = { T.code };

    ghost view = { λ shared. arc_value shared.held };
}

impl<T> Shared<T> {
    /// The value, for one holder more.
    pub fn share(&self) -> Result<Shared<T>, Memory>
        ensures { IfOk result (λ other. other ≡ self.now) }
    {
        Ok(Shared {
            held: Arc::try_clone(&self.held)?,
        })
    }

    /// The value.
    pub fn get(&self) -> &T
        ensures { result.now ≡ self.now }
    {
        &self.held
    }
}

impl<T: Drop> Shared<T> {
    /// The value, with a first holder. One that found no memory is dropped.
    pub fn new(alloc: Global, value: T) -> Result<Shared<T>, Memory>
        ensures { IfOk result (λ shared. shared ≡ value) }
    {
        Ok(Shared {
            held: Arc::new(alloc, value)?,
        })
    }
}
