ghost use Rattle.std.specs.Prelude.{◌≡◌, IfOk};
ghost use Rattle.ks_fernet.specs.Opener.{key_of};
ghost use Rattle.ks_fernet.specs.Opening.{open_of};

use crate::opener::Opener;
use crate::opening::{OpenAnswer, answer_by};
use crate::opening_key::OpeningKey;
use ks_base::{Key, Memory, Text};
use std::alloc::Global;
use std::marker::Model;

/// A text under a number, and what a key makes of it. Contracts see the number, the key and the
/// text: the answer is what these make it.
#[derive(Drop)]
pub struct Opened {
    number: u64,
    key: Key,
    text: Text,
    answer: OpenAnswer,
}

impl Model for Opened {
    ghost use Rattle.std.specs.Prelude.{◌≡◌};
    ghost use Rattle.ks_fernet.specs.Opened.{Opening};
    ghost use Rattle.ks_fernet.specs.Opening.{open_of};

    ghost Value = { Opening };

    ghost view = { λ o. record { number = o.number; key = o.key; text = o.text } };

    ghost invariant = { λ o. o.answer ≡ open_of o.key o.text };
}

impl Opened {
    pub fn number(&self) -> u64
        ensures { result ≡ self.now.number }
    {
        self.number
    }

    pub fn key(&self) -> &Key
        ensures { result.now ≡ self.now.key }
    {
        &self.key
    }

    pub fn text(&self) -> &Text
        ensures { result.now ≡ self.now.text }
    {
        &self.text
    }

    /// What the key makes of the text.
    pub fn answer(&self) -> &OpenAnswer
        ensures { result.now ≡ open_of self.now.key self.now.text }
    {
        &self.answer
    }
}

/// Opens a copy of the text under a number.
pub fn open(alloc: Global, number: u64, key: &Key, text: &Text) -> Result<Opened, Memory>
    ensures { IfOk result (λ opened. opened ≡ record { number = number; key = key.now; text = text.now }) }
{
    open_by(alloc, number, &Opener::Plain(key), text)
}

impl OpeningKey {
    /// [`open`] by this key.
    pub fn open(&self, alloc: Global, number: u64, text: &Text) -> Result<Opened, Memory>
        ensures { IfOk result (λ opened. opened ≡ record { number = number; key = self.now; text = text.now }) }
    {
        open_by(alloc, number, &Opener::Taken(self), text)
    }
}

fn open_by(alloc: Global, number: u64, opener: &Opener, text: &Text) -> Result<Opened, Memory>
    ensures { IfOk result (λ opened. opened ≡ record { number = number; key = key_of opener.now; text = text.now }) }
{
    let answer = answer_by(alloc, opener, text.as_slice())?;
    Ok(Opened {
        number,
        key: *opener.key(),
        text: text.copy()?,
        answer,
    })
}
