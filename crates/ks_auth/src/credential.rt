//! The application credential of a token, and the line that it serves.
ghost use Rattle.std.specs.Prelude.{◌≡◌};
ghost use Rattle.std.specs.Option.{option_copied};
ghost use Rattle.ks_auth.specs.Answers.{rows_told};
ghost use Rattle.ks_machine.specs.Validity.{cred_in_payload, is_cred_line, is_cred_on};

use crate::Tables;
use crate::scope::is_expired;
use ks_base::AppCredRow;
use ks_payload::Payload;

/// The application credential of the token, where it has one that stands.
pub fn cred_in_payload<'a>(tables: &Tables<'a>, payload: &Payload) -> Option<&'a AppCredRow>
    ensures { option_copied result ≡ cred_in_payload (rows_told tables.now) payload.now }
{
    match &payload.credential {
        Some(id) => tables.app_creds.row(id),
        None => None,
    }
}

/// Whether the token's application credential, if it has one, stands and is the token's: it has not expired at this
/// moment, and has the token's user and project.
pub fn is_cred_line(tables: &Tables, moment: u64, payload: &Payload) -> bool
    ensures { result ≡ is_cred_line (rows_told tables.now) moment payload.now }
{
    let Some(id) = &payload.credential else {
        return true;
    };
    match tables.app_creds.row(id) {
        Some(cred) => is_cred_on(moment, payload, cred),
        None => false,
    }
}

#[tactic(auto, unfolding(ks_machine::specs::Validity::is_cred_on))]
fn is_cred_on(moment: u64, payload: &Payload, cred: &AppCredRow) -> bool
    ensures { result ≡ is_cred_on moment payload.now cred.now }
{
    !is_expired(&cred.expires, moment)
        && cred.user == payload.user
        && payload.project == Some(cred.project)
}
