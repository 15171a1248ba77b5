ghost use Rattle.std.specs.Prelude.{◌≡◌, Result, option_map};
ghost use Rattle.serde_json.specs.Data.{Data};
ghost use Rattle.ks_json.specs.View.{items_view, view};
ghost use Rattle.ks_shape.specs.declared.misfit.Misfit.{Misfit};
ghost use Rattle.ks_shape.specs.Fields.{fault_at, judged, needed, needed_if, needed_value, optional, optional_value, unless_null};
ghost use Rattle.ks_shape.specs.Places.{names_in, path_at, place_of};
ghost use Rattle.ks_shape.specs.Readings.{Fits, Reads, ReadsBy, Refuses};
ghost use Rattle.ks_shape.specs.Types.{list_of};

use crate::misfit::{Misfit, Unread};
use crate::node::Node;
use ks_base::{ShapeFault, ShapeRefusal};
use ks_json::Value;
use std::alloc::Global;

/// A type of fields.
pub trait FieldType {
    /// What is read of a value.
    type Field: Drop;

    ghost reads: { Self → Data → Result Self.Field Misfit };

    fn read(&self, alloc: Global, value: &Value<'_>) -> Result<Self::Field, Unread>
        ensures { Fits result (reads self.now (view value.now)) };
}

/// The value, unless it is null.
pub fn unless_null<'v, 'a>(value: Option<&'v Value<'a>>) -> Option<&'v Value<'a>>
    ensures { option_map (λ v. view v.now) result ≡ unless_null (option_map (λ v. view v.now) value.entry) }
{
    let standing = value?;
    if standing.is_null() {
        return None;
    }
    Some(standing)
}

impl<'v, 'a> Node<'v, 'a> {
    /// The refusal of the value to which these names lead.
    pub fn refuse<T: Drop>(&self, names: &[&str], misfit: Misfit) -> Result<T, ShapeRefusal>
        ensures { Refuses result (fault_at (path_at (names_in names.now) (place_of self.now)) misfit) }
    {
        let path = self.path_at(names)?;
        match misfit {
            Misfit::Kind => Err(ShapeRefusal::Shape(ShapeFault::Kind(path))),
            Misfit::Range => Err(ShapeRefusal::Shape(ShapeFault::Range(path))),
        }
    }

    /// What was read of the value to which these names lead.
    #[tactic(auto, using(crate::proofs::RefusalLemmas::refused))]
    pub(crate) fn judged<T: Drop>(
        &self,
        names: &[&str],
        read: Result<T, Unread>,
    ) -> Result<T, ShapeRefusal>
        ensures { (said : Result T Misfit) → Fits read said
            → Reads result (judged (path_at (names_in names.now) (place_of self.now)) said) }
    {
        match read {
            Ok(field) => Ok(field),
            Err(Unread::Misfit(misfit)) => self.refuse(names, misfit),
            Err(Unread::Memory) => Err(ShapeRefusal::Memory),
        }
    }

    #[tactic(auto, unfolding(crate::specs::Fields::needed_value))]
    fn needed_value(&self, names: &[&str]) -> Result<&'v Value<'a>, ShapeRefusal>
        ensures { ReadsBy (λ value. view value.now) result (needed_value (names_in names.now) (place_of self.now)) }
    {
        match self.value_at(names)? {
            Some(value) => Ok(value),
            None => {
                let field = self.path_at(names)?;
                Err(ShapeRefusal::Shape(ShapeFault::Missing(field)))
            }
        }
    }

    /// The value of a field that may be absent, for which null stands too.
    #[tactic(auto, unfolding(crate::specs::Fields::optional_value))]
    pub fn optional_value(&self, names: &[&str]) -> Result<Option<&'v Value<'a>>, ShapeRefusal>
        ensures { ReadsBy (option_map (λ value. view value.now)) result (optional_value (names_in names.now) (place_of self.now)) }
    {
        let standing = self.value_at(names)?;
        Ok(unless_null(standing))
    }

    /// A field that must be there.
    #[tactic(auto, unfolding(crate::specs::Fields::needed))]
    pub fn needed<T: FieldType>(&self, names: &[&str], of: &T) -> Result<T::Field, ShapeRefusal>
        ensures { Reads result (needed (T.reads of.now) (names_in names.now) (place_of self.now)) }
    {
        let value = self.needed_value(names)?;
        self.judged(names, of.read(self.alloc, value))
    }

    /// A field that may be absent, for which null stands too.
    #[tactic(auto, unfolding(crate::specs::Fields::optional))]
    pub fn optional<T: FieldType>(
        &self,
        names: &[&str],
        of: &T,
    ) -> Result<Option<T::Field>, ShapeRefusal>
        ensures { Reads result (optional (T.reads of.now) (names_in names.now) (place_of self.now)) }
    {
        let Some(value) = self.optional_value(names)? else {
            return Ok(None);
        };
        let field = self.judged(names, of.read(self.alloc, value))?;
        Ok(Some(field))
    }

    /// A field that a new row needs, and a change may give.
    pub fn needed_if<T: FieldType>(
        &self,
        new: bool,
        names: &[&str],
        of: &T,
    ) -> Result<Option<T::Field>, ShapeRefusal>
        ensures { Reads result (needed_if new (T.reads of.now) (names_in names.now) (place_of self.now)) }
    {
        if new {
            let field = self.needed(names, of)?;
            return Ok(Some(field));
        }
        self.optional(names, of)
    }

    /// The list that a value is, of so many values at most.
    #[tactic(auto, using(crate::proofs::RefusalLemmas::refused_by, crate::proofs::ListLemmas::count_is), unfolding(crate::specs::Types::list_of))]
    fn judged_list(
        &self,
        names: &[&str],
        value: &'v Value<'a>,
        most: usize,
    ) -> Result<&'v Vec<Value<'a>>, ShapeRefusal>
        ensures { ReadsBy (λ items. items_view items.now.items) result
            (judged (path_at (names_in names.now) (place_of self.now)) (list_of most (view value.now))) }
    {
        let Some(items) = value.as_array() else {
            return self.refuse(names, Misfit::Kind);
        };
        if items.len() > most {
            return self.refuse(names, Misfit::Range);
        }
        Ok(items)
    }

    /// A list that must be there, of so many values at most.
    #[tactic(auto, unfolding(crate::specs::Fields::needed))]
    pub fn needed_list(
        &self,
        names: &[&str],
        most: usize,
    ) -> Result<&'v Vec<Value<'a>>, ShapeRefusal>
        ensures { ReadsBy (λ items. items_view items.now.items) result (needed (list_of most) (names_in names.now) (place_of self.now)) }
    {
        let value = self.needed_value(names)?;
        self.judged_list(names, value, most)
    }

    /// A list that may be absent, for which null stands too.
    #[tactic(auto, unfolding(crate::specs::Fields::optional))]
    pub fn optional_list(
        &self,
        names: &[&str],
        most: usize,
    ) -> Result<Option<&'v Vec<Value<'a>>>, ShapeRefusal>
        ensures { ReadsBy (option_map (λ items. items_view items.now.items)) result
            (optional (list_of most) (names_in names.now) (place_of self.now)) }
    {
        let Some(value) = self.optional_value(names)? else {
            return Ok(None);
        };
        let items = self.judged_list(names, value, most)?;
        Ok(Some(items))
    }
}
