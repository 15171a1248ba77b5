//! Texts and ids that are made of a word and a number.
ghost use Rattle.std.specs.Prelude.{◌≡◌, ◌<◌, ◌^◌, length, codes, string_bytes, IfOk};
ghost use Rattle.ks_base.specs.Ids.{IsId};
ghost use Rattle.ks_machine.specs.Ranges.{IsName, IsPassword};
ghost use Rattle.ks_drill.specs.Openings.{numbered, role_id};

use itoa::Buffer;
use ks_base::{Id, Memory, Text};
use std::alloc::Global;

/// A letter with a number behind it.
#[tactic(auto, using(crate::proofs::WordLemmas::name_numbered))]
pub(crate) fn numbered(alloc: Global, letter: &str, number: u64) -> Result<Text, Memory>
    requires { length letter.now ≡ 1 }
    ensures made { IfOk result (λ made. made ≡ numbered letter.now number) }
    ensures name { IfOk result IsName }
    ensures password { IfOk result IsPassword }
{
    let made = [letter, Buffer::new().format(number)].concat(alloc)?;
    Text::of(alloc, made.as_str())
}

/// The id that these bytes spell.
pub(crate) fn id_of(text: &[u8]) -> Id
    requires { IsId text.now }
    ensures { result ≡ text.now }
{
    let Ok(id) = Id::read(text) else {
        unreachable!()
    };
    id
}

/// The id of a role of the ring, which is its name too.
#[tactic(auto, using(crate::proofs::WordLemmas::id_numbered))]
pub(crate) fn role_id(alloc: Global, number: u64) -> Result<Id, Memory>
    ensures { IfOk result (λ id. id ≡ role_id number) }
{
    let name = numbered(alloc, "r", number)?;
    Ok(id_of(name.as_slice()))
}
