//! Tokens that end.
ghost use Rattle.ks_auth.specs.declared.tables.Tables.{Tables};
ghost use Rattle.ks_fits.specs.Told.{SaysFit};
ghost use Rattle.ks_machine.specs.declared.change.Change.TheVariants as changed;

/// Whether the token with this audit id may end: any may, also one that was never given.
#[tactic(auto, unfolding(ks_machine::specs::Lawful::Fits))]
pub fn may_revoke(_audit: &[u8; 16]) -> bool
    ensures { (tables : Tables) → SaysFit tables result (changed.RevokeToken _audit.now) }
{
    true
}
