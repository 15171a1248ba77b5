ghost use Rattle.std.specs.Prelude.{◌≡◌, option_copied, IfOk};
ghost use Rattle.ks_laws.specs.Lacking.{secret_in};
ghost use Rattle.ks_service.specs.Work.{secrets_in, secrets_of_made, token_in};

use ks_auth::secret_of_draw;
use ks_base::{Memory, Text};
use ks_machine::{Call, Command, Made, Proof};
use std::alloc::Global;

/// What a call shows that only ciphers can test.
#[derive(Clone, Copy)]
pub(crate) struct Secrets<'a> {
    /// The text of the token with which it logs in.
    pub token: Option<&'a Text>,
    /// The password that it shows, or the secret of an application credential.
    pub shown: Option<&'a Text>,
}

const NONE: Secrets<'static> = Secrets {
    token: None,
    shown: None,
};

impl<'a> Secrets<'a> {
    pub fn of(call: &'a Call) -> Secrets<'a>
        ensures token { option_copied result.token ≡ (secrets_in call.now).token }
        ensures shown { option_copied result.shown ≡ (secrets_in call.now).shown }
    {
        match &call.command {
            Command::Login(body) => Secrets::of_proof(&body.get().proof),
            Command::ChangePassword(_, original, _) => Secrets {
                shown: Some(original),
                ..NONE
            },
            _ => NONE,
        }
    }

    fn of_proof(proof: &'a Proof) -> Secrets<'a>
        ensures token { option_copied result.token ≡ token_in proof.now }
        ensures shown { option_copied result.shown ≡ secret_in proof.now }
    {
        match proof {
            Proof::Password(_, shown) | Proof::AppCred(_, shown) | Proof::Both(_, shown, _, _) => {
                Secrets {
                    shown: Some(shown),
                    ..NONE
                }
            }
            Proof::Token(text) => Secrets {
                token: Some(text),
                ..NONE
            },
            Proof::Totp(_, _) => NONE,
        }
    }
}

/// The password that the call sets, or the secret of the application credential that it makes, which may be drawn.
pub(crate) fn new_secret(alloc: Global, call: &Call) -> Result<Option<Text>, Memory>
    ensures { IfOk result (λ secret. secret ≡ (secrets_in call.now).set) }
{
    match &call.command {
        Command::ChangePassword(_, _, password) => Ok(Some(password.copy()?)),
        Command::Create(made) => password_of(made.get()),
        Command::Update(_, made) => password_of(made.get()),
        Command::CreateAppCred(_, body) => {
            Ok(Some(secret_of_draw(alloc, &call.draw, &body.get().secret)?))
        }
        _ => Ok(None),
    }
}

/// The password of a user who is made or changed, if there is one.
fn password_of(made: &Made) -> Result<Option<Text>, Memory>
    ensures { IfOk result (λ password. password ≡ (secrets_of_made made.now).set) }
{
    match made {
        Made::User {
            password: Some(password),
            ..
        } => Ok(Some(password.copy()?)),
        _ => Ok(None),
    }
}
