//! The methods by which a login says who it is.
ghost use Rattle.std.specs.Prelude.{◌≡◌};
ghost use Rattle.ks_json.specs.View.{items_view};
ghost use Rattle.ks_shape.specs.Methods.{are_both, login_methods, method_in, method_named, pair_named};

use crate::fields::FieldType;
use crate::misfit::{Misfit, Unread};
use ks_json::Value;
use std::alloc::Global;

/// How a login shows who it is.
#[derive(Clone, Copy)]
pub enum LoginMethod {
    Password,
    /// A code that is good for one time.
    Totp,
    /// A password and a code.
    Both,
    Token,
    AppCred,
}

/// The list of the methods of a login.
#[derive(Clone, Copy)]
pub struct LoginMethods;

fn method_named(text: &str) -> Option<LoginMethod>
    ensures { result ≡ method_named text.now }
{
    if text == "password" {
        return Some(LoginMethod::Password);
    }
    if text == "totp" {
        return Some(LoginMethod::Totp);
    }
    if text == "token" {
        return Some(LoginMethod::Token);
    }
    if text == "application_credential" {
        return Some(LoginMethod::AppCred);
    }
    None
}

fn are_both(first: &str, second: &str) -> bool
    ensures { result ≡ are_both first.now second.now }
{
    first == "password" && second == "totp"
}

/// A password and a code go together, in either order.
fn pair_named(first: &str, second: &str) -> Option<LoginMethod>
    ensures { result ≡ pair_named first.now second.now }
{
    if are_both(first, second) || are_both(second, first) {
        return Some(LoginMethod::Both);
    }
    None
}

/// The method that a list says: one, or two that go together.
#[tactic(auto, using(crate::proofs::ListLemmas::only_item, crate::proofs::ListLemmas::two_items, crate::proofs::MethodLemmas::no_method))]
fn method_in(items: &[Value<'_>]) -> Option<LoginMethod>
    ensures { result ≡ method_in (items_view items.now) }
{
    match items {
        [only] => method_named(only.as_str()?),
        [first, second] => pair_named(first.as_str()?, second.as_str()?),
        _ => None,
    }
}

impl FieldType for LoginMethods {
    type Field = LoginMethod;

    ghost reads = { λ _. login_methods };

    #[tactic(auto, unfolding(crate::specs::Methods::login_methods))]
    fn read(&self, _alloc: Global, value: &Value<'_>) -> Result<LoginMethod, Unread> {
        let Some(items) = value.as_array() else {
            return Err(Unread::Misfit(Misfit::Kind));
        };
        match method_in(items) {
            Some(method) => Ok(method),
            None => Err(Unread::Misfit(Misfit::Range)),
        }
    }
}
