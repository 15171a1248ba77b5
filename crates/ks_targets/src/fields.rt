//! The named texts that rules see, gathered one behind the other.
ghost use Rattle.std.specs.Prelude.{◌≡◌, ◌++◌, [], OnOk};
ghost use Rattle.std.specs.Option.{option_copied};
ghost use Rattle.ks_machine.specs.Targets.{field, given, given_truth};

use ks_base::{FieldList, Id, Memory, Text};
use std::alloc::Global;
use std::marker::Model;

/// Fields that are gathered, one behind the other.
#[derive(Drop)]
pub struct Fields {
    alloc: Global,
    list: FieldList,
}

impl Model for Fields {
    ghost use Rattle.ks_rule.specs.Kinds.{Fields};

    ghost Value = { Fields };

    ghost view = { λ fields. fields.list };
}

impl Fields {
    /// No fields, which take no memory yet.
    pub fn new(alloc: Global) -> Fields
        ensures { result ≡ [] }
    {
        Fields {
            alloc,
            list: FieldList::new(alloc),
        }
    }

    /// The list of the fields.
    pub fn into_list(self) -> FieldList
        ensures { result ≡ self }
    {
        self.list
    }

    /// Puts a field behind the others.
    fn put(&mut self, name: &str, value: Text) -> Result<(), Memory>
        ensures { OnOk result (self.new ≡ self.old ++ field name.now value) }
    {
        let name = Text::of(self.alloc, name)?;
        self.list.push((name, value))
    }

    /// Puts a field behind the others whose value is this word.
    pub fn put_word(&mut self, name: &str, value: &str) -> Result<(), Memory>
        ensures { OnOk result (self.new ≡ self.old ++ field name.now value.now) }
    {
        let value = Text::of(self.alloc, value)?;
        self.put(name, value)
    }

    /// Puts a field behind the others whose value is an id.
    pub fn put_id(&mut self, name: &str, id: &Id) -> Result<(), Memory>
        ensures { OnOk result (self.new ≡ self.old ++ field name.now id.now) }
    {
        self.put_word(name, id.as_str())
    }

    /// The same, where there is an id.
    pub fn put_given_id(&mut self, name: &str, id: Option<&Id>) -> Result<(), Memory>
        ensures { OnOk result (self.new ≡ self.old ++ given name.now (option_copied id.entry)) }
    {
        match id {
            Some(id) => self.put_id(name, id),
            None => Ok(()),
        }
    }

    /// Puts a field behind the others, where there is a text.
    pub fn put_given(&mut self, name: &str, text: Option<&Text>) -> Result<(), Memory>
        ensures { OnOk result (self.new ≡ self.old ++ given name.now (option_copied text.entry)) }
    {
        match text {
            Some(text) => self.put(name, text.copy()?),
            None => Ok(()),
        }
    }

    /// Puts a truth value behind the others, where there is one.
    pub fn put_given_truth(&mut self, name: &str, truth: Option<bool>) -> Result<(), Memory>
        ensures { OnOk result (self.new ≡ self.old ++ given_truth name.now truth) }
    {
        match truth {
            Some(true) => self.put_word(name, "True"),
            Some(false) => self.put_word(name, "False"),
            None => Ok(()),
        }
    }
}
