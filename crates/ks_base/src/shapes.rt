ghost use Rattle.std.specs.Prelude.{◌≡◌, option_copied, IfOk};
ghost use Rattle.ks_base.specs.Filters.{has_id, has_text, value_in};

use crate::{FieldList, Id, Memory, Text, TryCopy};
use std::alloc::{AllocError, AllocFailed};

/// Why a JSON document is not what was asked for. A path is the names of the members that lead to the
/// field, joined by full stops; it is empty for the whole document.
pub enum ShapeFault {
    /// The bytes are no JSON text (RFC 8259) of at most 127 levels.
    NotJson,
    /// The field at this path is needed and is not there.
    Missing(Text),
    /// The value at this path has another type.
    Kind(Text),
    /// The value at this path has the type, and is outside its limits.
    Range(Text),
}

impl Drop for ShapeFault {
    fn drop(self) {
        match self {
            ShapeFault::NotJson
            | ShapeFault::Missing(_)
            | ShapeFault::Kind(_)
            | ShapeFault::Range(_) => {}
        }
    }
}

/// Why a document was not read.
#[derive(Drop)]
pub enum ShapeRefusal {
    /// It is not what was asked for.
    Shape(ShapeFault),
    /// There was no memory.
    Memory,
}

/// The named texts of a query by which the rows of a listing are chosen, each name once.
#[derive(Drop)]
pub struct Filter {
    pub fields: FieldList,
}

impl ShapeFault {
    /// An equal fault.
    pub fn copy(&self) -> Result<ShapeFault, Memory>
        ensures { IfOk result (λ made. made ≡ self.now) }
    {
        match self {
            ShapeFault::NotJson => Ok(ShapeFault::NotJson),
            ShapeFault::Missing(path) => Ok(ShapeFault::Missing(path.copy()?)),
            ShapeFault::Kind(path) => Ok(ShapeFault::Kind(path.copy()?)),
            ShapeFault::Range(path) => Ok(ShapeFault::Range(path.copy()?)),
        }
    }
}

impl TryCopy for ShapeFault {
    fn copy(&self) -> Result<ShapeFault, Memory> {
        ShapeFault::copy(self)
    }
}

impl Filter {
    /// An equal filter.
    pub fn copy(&self) -> Result<Filter, Memory>
        ensures { IfOk result (λ made. made ≡ self.now) }
    {
        Ok(Filter {
            fields: self.fields.copy()?,
        })
    }

    /// The first value under this name.
    #[tactic(auto, unfolding(crate::specs::Filters::value_in))]
    pub fn value(&self, name: &str) -> Option<&Text>
        ensures { option_copied result ≡ value_in self.now.fields name.now }
    {
        for (known, value) in self.fields.as_slice() {
            if known.as_slice() == name.as_bytes() {
                return Some(value);
            }
        }
        None
    }

    /// Whether nothing is given under this name, or this value.
    pub fn has_text(&self, name: &str, value: &[u8]) -> bool
        ensures { result ≡ has_text self.now.fields name.now value.now }
    {
        match self.value(name) {
            Some(wanted) => value == wanted.as_slice(),
            None => true,
        }
    }

    /// Whether nothing is given under this name, or this id; a value that is given is not that of a row without one.
    pub fn has_id(&self, name: &str, id: &Option<Id>) -> bool
        ensures { result ≡ has_id self.now.fields name.now id.now }
    {
        match id {
            Some(id) => self.has_text(name, id.as_slice()),
            None => self.value(name).is_none(),
        }
    }
}

impl TryCopy for Filter {
    fn copy(&self) -> Result<Filter, Memory> {
        Filter::copy(self)
    }
}

impl From<Memory> for ShapeRefusal {
    ghost use Rattle.ks_base.specs.declared.shapes.ShapeRefusal.TheVariants as variants;

    ghost from_gives = { λ _ e. e ≡ variants.Memory };

    fn from(_error: Memory) -> ShapeRefusal {
        ShapeRefusal::Memory
    }
}

impl From<AllocError> for ShapeRefusal {
    ghost use Rattle.ks_base.specs.declared.shapes.ShapeRefusal.TheVariants as variants;

    ghost from_gives = { λ _ e. e ≡ variants.Memory };

    fn from(_error: AllocError) -> ShapeRefusal {
        ShapeRefusal::Memory
    }
}

impl<T: Drop> From<AllocFailed<T>> for ShapeRefusal {
    ghost use Rattle.ks_base.specs.declared.shapes.ShapeRefusal.TheVariants as variants;

    ghost from_gives = { λ _ e. e ≡ variants.Memory };

    fn from(_error: AllocFailed<T>) -> ShapeRefusal {
        ShapeRefusal::Memory
    }
}
