ghost use Rattle.std.specs.Prelude.{◌≡◌, option_and_then};
ghost use Rattle.serde_json.specs.Find.{as_number, as_u64};
ghost use Rattle.ks_json.specs.View.{view};
ghost use Rattle.ks_shape.specs.declared.misfit.Misfit.TheVariants as misfit;
ghost use Rattle.ks_shape.specs.Times.{time_of};
ghost use Rattle.ks_shape.specs.Types.{affirmation, any_text, falsehood, id_in, id_text, text_of, time_text, truth, whole};
ghost use Rattle.ks_base.specs.Results.{found, need};
ghost use Rattle.ks_shape.specs.Readings.{same_text};

use crate::fields::FieldType;
use crate::misfit::{Misfit, Unread};
use ks_base::{Id, Text};
use ks_json::Value;
use ks_time::read_time;
use std::alloc::Global;

/// Any text.
#[derive(Clone, Copy)]
pub struct AnyText;

/// A text of at least and at most so many bytes.
#[derive(Clone, Copy)]
pub struct TextOf {
    pub least: usize,
    pub most: usize,
}

/// The text of an id.
#[derive(Clone, Copy)]
pub struct IdText;

/// A truth value.
#[derive(Clone, Copy)]
pub struct Truth;

/// A truth value that is not true.
#[derive(Clone, Copy)]
pub struct Falsehood;

/// A truth value that is true.
#[derive(Clone, Copy)]
pub struct Affirmation;

/// A whole number within these bounds.
#[derive(Clone, Copy)]
pub struct Whole {
    pub least: u64,
    pub most: u64,
}

/// A whole number from 0 to 2^32 - 1.
#[derive(Clone, Copy)]
pub struct Count;

/// The text of a moment, read in whole seconds since 1970-01-01T00:00:00Z.
#[derive(Clone, Copy)]
pub struct TimeText;

pub(crate) fn need(holds: bool, misfit: Misfit) -> Result<(), Misfit>
    ensures { result ≡ need holds misfit }
{
    if holds { Ok(()) } else { Err(misfit) }
}

pub(crate) fn any_text<'a>(value: &Value<'a>) -> Result<&'a str, Misfit>
    ensures { same_text result ≡ any_text (view value.now) }
{
    match value.as_str() {
        Some(text) => Ok(text),
        None => Err(Misfit::Kind),
    }
}

fn any_truth(value: &Value<'_>) -> Result<bool, Misfit>
    ensures { result ≡ truth (view value.now) }
{
    match value.as_bool() {
        Some(holds) => Ok(holds),
        None => Err(Misfit::Kind),
    }
}

fn any_number(value: &Value<'_>) -> Result<u64, Misfit>
    ensures { result ≡ found (option_and_then as_u64 (as_number (view value.now))) misfit.Kind }
{
    match value.as_u64() {
        Some(number) => Ok(number),
        None => Err(Misfit::Kind),
    }
}

/// The id that a text is.
#[tactic(auto, unfolding(crate::specs::Types::id_in))]
fn id_in(text: &str) -> Result<Id, Misfit>
    ensures { result ≡ id_in text.now }
{
    match Id::read(text.as_bytes()) {
        Ok(id) => Ok(id),
        Err(_) => Err(Misfit::Range),
    }
}

/// The moment that a text names.
fn moment_in(text: &str) -> Result<u64, Misfit>
    ensures { result ≡ found (time_of text.now) misfit.Kind }
{
    match read_time(text.as_bytes()) {
        Some(moment) => Ok(moment),
        None => Err(Misfit::Kind),
    }
}

impl FieldType for AnyText {
    type Field = Text;

    ghost reads = { λ _. any_text };

    fn read(&self, alloc: Global, value: &Value<'_>) -> Result<Text, Unread> {
        let text = any_text(value)?;
        Ok(Text::of(alloc, text)?)
    }
}

impl FieldType for TextOf {
    type Field = Text;

    ghost reads = { λ limits. text_of limits.least limits.most };

    #[tactic(auto, unfolding(crate::specs::Types::text_of))]
    fn read(&self, alloc: Global, value: &Value<'_>) -> Result<Text, Unread> {
        let text = any_text(value)?;
        need(
            (self.least..=self.most).contains(&text.len()),
            Misfit::Range,
        )?;
        Ok(Text::of(alloc, text)?)
    }
}

impl FieldType for IdText {
    type Field = Id;

    ghost reads = { λ _. id_text };

    #[tactic(auto, unfolding(crate::specs::Types::id_text))]
    fn read(&self, _alloc: Global, value: &Value<'_>) -> Result<Id, Unread> {
        let text = any_text(value)?;
        Ok(id_in(text)?)
    }
}

impl FieldType for Truth {
    type Field = bool;

    ghost reads = { λ _. truth };

    fn read(&self, _alloc: Global, value: &Value<'_>) -> Result<bool, Unread> {
        Ok(any_truth(value)?)
    }
}

impl FieldType for Falsehood {
    type Field = bool;

    ghost reads = { λ _. falsehood };

    #[tactic(auto, unfolding(crate::specs::Types::falsehood))]
    fn read(&self, _alloc: Global, value: &Value<'_>) -> Result<bool, Unread> {
        let holds = any_truth(value)?;
        need(!holds, Misfit::Range)?;
        Ok(holds)
    }
}

impl FieldType for Affirmation {
    type Field = bool;

    ghost reads = { λ _. affirmation };

    #[tactic(auto, unfolding(crate::specs::Types::affirmation))]
    fn read(&self, _alloc: Global, value: &Value<'_>) -> Result<bool, Unread> {
        let holds = any_truth(value)?;
        need(holds, Misfit::Range)?;
        Ok(holds)
    }
}

impl FieldType for Whole {
    type Field = u64;

    ghost reads = { λ bounds. whole bounds.least bounds.most };

    #[tactic(auto, unfolding(crate::specs::Types::whole))]
    fn read(&self, _alloc: Global, value: &Value<'_>) -> Result<u64, Unread> {
        let number = any_number(value)?;
        need((self.least..=self.most).contains(&number), Misfit::Range)?;
        Ok(number)
    }
}

impl FieldType for Count {
    type Field = u32;

    ghost reads = { λ _. whole 0 4_294_967_295 };

    #[tactic(auto, unfolding(crate::specs::Types::whole))]
    fn read(&self, _alloc: Global, value: &Value<'_>) -> Result<u32, Unread> {
        let number = any_number(value)?;
        match u32::try_from(number) {
            Ok(count) => Ok(count),
            Err(_) => Err(Unread::Misfit(Misfit::Range)),
        }
    }
}

impl FieldType for TimeText {
    type Field = u64;

    ghost reads = { λ _. time_text };

    #[tactic(auto, unfolding(crate::specs::Types::time_text))]
    fn read(&self, _alloc: Global, value: &Value<'_>) -> Result<u64, Unread> {
        let text = any_text(value)?;
        Ok(moment_in(text)?)
    }
}
