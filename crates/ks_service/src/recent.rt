//! What a worker remembers of its calls.

use crate::opens::{TakenKey, taken_in};
use crate::work::open_tokens;
use ks_auth::Facts;
use ks_base::ListOf;
use ks_machine::Call;
use ks_outside::Gate;
use ks_ring::HeldKey;
use std::alloc::Global;
use std::mem;

/// What a worker found out of ciphers in its last calls, so that the next one need not ask for it: the keys that the ring had,
/// taken in, and what they make of the last caller's token. What a key makes of a text is true for ever, so that nothing here is ever
/// wrong; where the ring has other keys now, a decision asks for what it lacks.
#[derive(Drop)]
pub struct Recent {
    alloc: Global,
    keys: ListOf<TakenKey>,
    facts: Facts,
}

impl Recent {
    /// Nothing is remembered, which takes no memory yet.
    pub fn new(alloc: Global) -> Recent {
        Recent {
            alloc,
            keys: ListOf::new(alloc),
            facts: Facts::new(alloc),
        }
    }

    /// The keys that the ring had when it was asked last, as far as they are remembered.
    pub(crate) fn keys(&self) -> &[TakenKey] {
        self.keys.as_slice()
    }

    /// The facts with which a call begins: its tokens are opened with the keys that are remembered.
    pub(crate) fn begin<G: Gate>(&mut self, call: &Call, gate: &G) -> Facts {
        let mut facts = mem::replace(&mut self.facts, Facts::new(self.alloc));
        // Where there is no memory for it, the decision asks for what it lacks.
        let _opened = open_tokens(self.alloc, self.keys.as_slice(), call, &mut facts, gate);
        facts
    }

    /// Takes in the keys for which a decision asked, of which none are remembered. Where some are, the ring has changed, and
    /// they are forgotten: the next decision then asks for all keys, and not only for the new ones.
    pub(crate) fn learn(&mut self, keys: &[HeldKey]) {
        if keys.is_empty() {
            return;
        }
        let known = mem::replace(&mut self.keys, ListOf::new(self.alloc));
        if !known.as_slice().is_empty() {
            return;
        }
        // Where there is no memory for them, none are remembered.
        if let Ok(taken) = taken_in(self.alloc, keys) {
            self.keys = taken;
        }
    }

    /// Remembers what is known of the caller's token, and lets all else go that was found out for the call.
    pub(crate) fn end(&mut self, facts: Facts, call: &Call) {
        if let Some(text) = &call.caller {
            self.facts = facts.about(text);
        }
    }
}
