ghost use Rattle.std.specs.Prelude.{◌≡◌, string_bytes};

use ks_base::ListOf;
use std::borrow::CowStr;
use std::marker::Model;

/// A name or a value of a response's field: fixed words, which take no memory, or a text that is made for the one
/// response. Contracts see its bytes.
#[derive(Drop)]
pub struct Wording {
    words: CowStr<'static>,
}

impl Model for Wording {
    ghost use Rattle.std.specs.Prelude.{ℕ, List};
    ghost use Rattle.std.specs.Cow.{cow_str_bytes};

    ghost Value = { List ℕ };

    ghost view = { λ wording. cow_str_bytes wording.words };
}

/// Names with their values, in the order in which they are written.
pub type ResponseFields = ListOf<(Wording, Wording)>;

impl Wording {
    /// These words, which every such response has.
    pub fn fixed(words: &'static str) -> Wording
        ensures { result ≡ words.now }
    {
        Wording {
            words: CowStr::Borrowed(words),
        }
    }

    /// This text, in place.
    pub fn own(text: String) -> Wording
        ensures { result ≡ string_bytes text }
    {
        Wording {
            words: CowStr::Owned(text),
        }
    }

    /// The bytes of the words.
    pub fn as_slice(&self) -> &[u8]
        ensures { result.now ≡ self.now }
    {
        self.words.as_str().as_bytes()
    }
}
