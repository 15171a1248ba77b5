ghost use Rattle.std.specs.Prelude.{◌≡◌, [], ◌∷◌, ◌++◌, OnOk, OnErr, option_copied, if◌then◌else◌};
ghost use Rattle.std.specs.List.{filter};
ghost use Rattle.std.specs.Str.{bytes_eq};
ghost use Rattle.ks_auth.specs.Facts.{about, is_of, is_derived, has_opened, has_derived, told};
ghost use Rattle.ks_fernet.specs.Opening.{open_of};
ghost use Rattle.ks_hmac.specs.Pbkdf2.{pbkdf2_of};

use ks_base::{ListOf, Memory, Text};
use ks_fernet::{OpenAnswer, Opened};
use ks_machine::Derived;
use ks_ring::HeldKey;
use std::alloc::Global;
use std::marker::Model;

/// What was found out of ciphers, to be used in decisions: what keys make of texts, and what was derived of
/// passwords. A look-up goes through the facts in the order in which they came.
pub struct Facts {
    opened: ListOf<Opened>,
    derived: ListOf<Derived>,
}

impl Drop for Facts {
    fn drop(self) {
        let Facts {
            opened: _,
            derived: _,
        } = self;
    }
}

impl Model for Facts {
    ghost use Rattle.ks_auth.specs.Facts.{FactsState};

    ghost Value = { FactsState };

    ghost view = { λ facts. record { opened = facts.opened; derived = facts.derived } };
}

impl Facts {
    /// No facts, which take no memory yet.
    pub fn new(alloc: Global) -> Facts
        ensures { result ≡ record { opened = []; derived = [] } }
    {
        Facts {
            opened: ListOf::new(alloc),
            derived: ListOf::new(alloc),
        }
    }

    /// Adds what a key makes of a text.
    pub fn add_opened(&mut self, fact: Opened) -> Result<(), Memory>
        ensures ok { OnOk result (self.new ≡ record self.old { opened = self.old.opened ++ fact ∷ [] }) }
        ensures err { OnErr result (self.new ≡ self.old) }
    {
        self.opened.push(fact)
    }

    /// Adds what was derived of a password.
    pub fn add_derived(&mut self, fact: Derived) -> Result<(), Memory>
        ensures ok { OnOk result (self.new ≡ record self.old { derived = self.old.derived ++ fact ∷ [] }) }
        ensures err { OnErr result (self.new ≡ self.old) }
    {
        self.derived.push(fact)
    }

    /// The facts about the text of one token alone, for calls that come later. What was derived of passwords is let go. It
    /// takes no memory.
    pub fn about(self, text: &Text) -> Facts
        ensures { result ≡ about text.now self }
    {
        let Facts { opened, derived: _ } = self;
        let mut opened = opened.into_vec();
        keep_about(&mut opened, text);
        let derived = ListOf::new(*opened.allocator());
        Facts {
            opened: ListOf::from_vec(opened),
            derived,
        }
    }

    /// What the key makes of the text, where a fact says so under the key's number. It takes no memory.
    #[tactic(auto, unfolding(crate::specs::Facts::told))]
    pub fn opened(&self, held: &HeldKey, text: &Text) -> Option<&OpenAnswer>
        ensures { option_copied result ≡ (told self.now).answer held.now text.now }
    {
        answer_in(self.opened.as_slice(), held, text)
    }

    /// What is derived of the password with this salt and so many rounds, where a fact says so. It takes no memory.
    #[tactic(auto, unfolding(crate::specs::Facts::told))]
    pub fn derived(&self, password: &Text, salt: &[u8; 16], rounds: u32) -> Option<[u8; 32]>
        ensures { result ≡ (told self.now).derive password.now salt.now rounds }
    {
        digest_in(self.derived.as_slice(), password, salt, rounds)
    }
}

/// Leaves the facts about this text.
fn keep_about(facts: &mut Vec<Opened>, text: &Text)
    ensures { facts.new.items ≡ filter (λ fact. bytes_eq fact.text text.now) facts.old.items }
{
    facts.retain(|fact| fact.text() == text);
}

fn answer_in<'a>(facts: &'a [Opened], held: &HeldKey, text: &Text) -> Option<&'a OpenAnswer>
    ensures { option_copied result ≡ (if has_opened held.now text.now facts.now then Some (open_of held.now.key text.now) else None) }
{
    for fact in facts {
        if is_of(fact, held, text) {
            return Some(fact.answer());
        }
    }
    None
}

/// Whether the fact is of this number, key and text.
fn is_of(fact: &Opened, held: &HeldKey, text: &Text) -> bool
    ensures { result ≡ is_of held.now text.now fact.now }
{
    fact.number() == held.number && *fact.key() == held.key && fact.text() == text
}

fn digest_in(facts: &[Derived], password: &Text, salt: &[u8; 16], rounds: u32) -> Option<[u8; 32]>
    ensures { result ≡ (if has_derived password.now salt.now rounds facts.now then Some (pbkdf2_of password.now salt.now rounds) else None) }
{
    for fact in facts {
        if is_derived(fact, password, salt, rounds) {
            return Some(*fact.digest());
        }
    }
    None
}

/// Whether the fact is of this password, salt and count.
fn is_derived(fact: &Derived, password: &Text, salt: &[u8; 16], rounds: u32) -> bool
    ensures { result ≡ is_derived password.now salt.now rounds fact.now }
{
    fact.rounds() == rounds && fact.salt() == salt && fact.password() == password
}
