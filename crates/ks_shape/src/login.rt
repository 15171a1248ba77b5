ghost use Rattle.ks_shape.specs.Logins.{both_proof, code_part, code_proof, cred_proof, login_of, password_part, password_proof, proof_by, token_proof};
ghost use Rattle.ks_shape.specs.Places.{place_of};
ghost use Rattle.ks_shape.specs.Readings.{Reads};

use crate::app_cred::CRED_SECRET;
use crate::method::{LoginMethod, LoginMethods};
use crate::names::{cred, user};
use crate::node::Node;
use crate::rows::PASSWORD;
use crate::scope::scope;
use crate::secret::CodeText;
use crate::types::AnyText;
use ks_base::{ShapeRefusal, Text};
use ks_machine::{LoginBody, Proof, UserNamed};

/// A user, and its password.
#[tactic(auto, unfolding(crate::specs::Logins::password_part))]
fn password_part(body: &Node) -> Result<(UserNamed, Text), ShapeRefusal>
    ensures { Reads result (password_part (place_of body.now)) }
{
    let below = body.at(&["auth", "identity", "password", "user"])?;
    let password = below.needed(&["password"], &PASSWORD)?;
    let named = user(&below)?;
    Ok((named, password))
}

/// A user, and a code of it.
#[tactic(auto, unfolding(crate::specs::Logins::code_part))]
fn code_part(body: &Node) -> Result<(UserNamed, u32), ShapeRefusal>
    ensures { Reads result (code_part (place_of body.now)) }
{
    let below = body.at(&["auth", "identity", "totp", "user"])?;
    let code = below.needed(&["passcode"], &CodeText)?;
    let named = user(&below)?;
    Ok((named, code))
}

#[tactic(auto, unfolding(crate::specs::Logins::password_proof))]
fn password_proof(body: &Node) -> Result<Proof, ShapeRefusal>
    ensures { Reads result (password_proof (place_of body.now)) }
{
    let (named, password) = password_part(body)?;
    Ok(Proof::Password(named, password))
}

#[tactic(auto, unfolding(crate::specs::Logins::code_proof))]
fn code_proof(body: &Node) -> Result<Proof, ShapeRefusal>
    ensures { Reads result (code_proof (place_of body.now)) }
{
    let (named, code) = code_part(body)?;
    Ok(Proof::Totp(named, code))
}

#[tactic(auto, unfolding(crate::specs::Logins::both_proof))]
fn both_proof(body: &Node) -> Result<Proof, ShapeRefusal>
    ensures { Reads result (both_proof (place_of body.now)) }
{
    let (named, password) = password_part(body)?;
    let (coded, code) = code_part(body)?;
    Ok(Proof::Both(named, password, coded, code))
}

#[tactic(auto, unfolding(crate::specs::Logins::token_proof))]
fn token_proof(body: &Node) -> Result<Proof, ShapeRefusal>
    ensures { Reads result (token_proof (place_of body.now)) }
{
    let token = body.needed(&["auth", "identity", "token", "id"], &AnyText)?;
    Ok(Proof::Token(token))
}

#[tactic(auto, unfolding(crate::specs::Logins::cred_proof))]
fn cred_proof(body: &Node) -> Result<Proof, ShapeRefusal>
    ensures { Reads result (cred_proof (place_of body.now)) }
{
    let below = body.at(&["auth", "identity", "application_credential"])?;
    let named = cred(&below)?;
    let secret = below.needed(&["secret"], &CRED_SECRET)?;
    Ok(Proof::AppCred(named, secret))
}

fn proof_by(method: LoginMethod, body: &Node) -> Result<Proof, ShapeRefusal>
    ensures { Reads result (proof_by method (place_of body.now)) }
{
    match method {
        LoginMethod::Password => password_proof(body),
        LoginMethod::Totp => code_proof(body),
        LoginMethod::Both => both_proof(body),
        LoginMethod::Token => token_proof(body),
        LoginMethod::AppCred => cred_proof(body),
    }
}

/// The body of a login.
#[tactic(auto, unfolding(crate::specs::Logins::login_of))]
pub fn login(body: &Node) -> Result<LoginBody, ShapeRefusal>
    ensures { Reads result (login_of (place_of body.now)) }
{
    let method = body.needed(&["auth", "identity", "methods"], &LoginMethods)?;
    let proof = proof_by(method, body)?;
    let below = body.at(&["auth", "scope"])?;
    let scope = scope(&below)?;
    Ok(LoginBody { proof, scope })
}
