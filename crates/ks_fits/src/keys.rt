//! Changes of the keys that are held.
ghost use Rattle.ks_fits.specs.Told.{SaysFit};
ghost use Rattle.ks_machine.specs.declared.change.Change.TheVariants as changed;
ghost use Rattle.ks_machine.specs.Lawful.{TakesKeys};

use ks_auth::Tables;
use ks_base::limits::LAST_KEY_INDEX;
use ks_base::{Key, KeyList};
use ks_ring::Ring;

/// Whether the keys may move on, whichever key is staged.
#[tactic(auto, unfolding(ks_machine::specs::Lawful::Fits))]
pub fn may_rotate(tables: &Tables) -> bool
    requires { TakesKeys tables.now.ring.now }
    ensures { (key : Key) → SaysFit tables.now result (changed.Rotate key) }
{
    !tables.settings.folder && tables.ring.primary().index < LAST_KEY_INDEX
}

/// Whether these keys may be held.
#[tactic(auto, unfolding(ks_machine::specs::Lawful::Fits))]
pub fn may_load(tables: &Tables, keys: &KeyList) -> bool
    requires { TakesKeys tables.now.ring.now }
    ensures { SaysFit tables.now result (changed.Load keys.now) }
{
    tables.settings.folder && Ring::new(keys.as_slice()).is_ok()
}
