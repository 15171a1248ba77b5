//! The options of a user: the methods that it has to log in by.
ghost use Rattle.std.specs.Prelude.{◌≡◌};
ghost use Rattle.ks_json.specs.View.{items_view, view};
ghost use Rattle.ks_shape.specs.Factors.{factor_named, factor_text, factors_at, mfa_rule, mfa_rules, options_of, rule_in};
ghost use Rattle.ks_shape.specs.Places.{place_of};
ghost use Rattle.ks_shape.specs.Readings.{Fits, Reads};
ghost use Rattle.ks_shape.specs.Types.{each_read};

use crate::fields::{FieldType, unless_null};
use crate::misfit::{Misfit, Unread};
use crate::node::Node;
use crate::types::{Truth, any_text, need};
use ks_base::limits::MFA_RULES;
use ks_base::{Bytes, ShapeRefusal};
use ks_json::Value;
use ks_machine::MfaIn;
use std::alloc::Global;

/// The bit of a password in a rule.
const PASSWORD: u8 = 1;

/// The bit of a one-time code in a rule.
const TOTP: u8 = 4;

/// A list of rules of the methods that a user has to log in by: at most 16 of one method or of two.
#[derive(Clone, Copy)]
struct MfaRules;

fn factor_named(text: &str) -> Option<u8>
    ensures { result ≡ factor_named text.now }
{
    if text == "password" {
        return Some(PASSWORD);
    }
    if text == "totp" {
        return Some(TOTP);
    }
    None
}

#[tactic(auto, unfolding(crate::specs::Factors::factor_text))]
fn factor(value: &Value<'_>) -> Result<u8, Misfit>
    ensures { result ≡ factor_text (view value.now) }
{
    let text = any_text(value)?;
    match factor_named(text) {
        Some(factor) => Ok(factor),
        None => Err(Misfit::Range),
    }
}

/// The set of one method or of two.
#[tactic(auto, using(crate::proofs::ListLemmas::only_item, crate::proofs::ListLemmas::two_items, crate::proofs::FactorLemmas::no_rule), unfolding(crate::specs::Factors::rule_in))]
fn rule_in(items: &[Value<'_>]) -> Result<u8, Misfit>
    ensures { result ≡ rule_in (items_view items.now) }
{
    match items {
        [only] => factor(only),
        [first, second] => {
            let one = factor(first)?;
            let other = factor(second)?;
            Ok(one | other)
        }
        _ => Err(Misfit::Range),
    }
}

#[tactic(auto, unfolding(crate::specs::Factors::mfa_rule))]
fn rule(value: &Value<'_>) -> Result<u8, Misfit>
    ensures { result ≡ mfa_rule (view value.now) }
{
    match value.as_array() {
        Some(items) => rule_in(items.as_slice()),
        None => Err(Misfit::Kind),
    }
}

#[tactic(auto, using(crate::proofs::FactorLemmas::rules_step, crate::proofs::FactorLemmas::rules_fault, crate::proofs::FactorLemmas::rules_end))]
fn all_rules(alloc: Global, items: &[Value<'_>]) -> Result<Bytes, Unread>
    ensures { Fits result (each_read mfa_rule (items_view items.now)) }
{
    let mut rules = Vec::with_capacity(alloc, items.len())?;
    for item in items {
        let next = rule(item)?;
        rules.push(next)?;
    }
    Ok(Bytes::from_vec(rules))
}

impl FieldType for MfaRules {
    type Field = Bytes;

    ghost reads = { λ _. mfa_rules };

    #[tactic(auto, using(crate::proofs::ListLemmas::count_is), unfolding(crate::specs::Factors::mfa_rules, crate::specs::Types::list_of))]
    fn read(&self, alloc: Global, value: &Value<'_>) -> Result<Bytes, Unread> {
        let Some(items) = value.as_array() else {
            return Err(Unread::Misfit(Misfit::Kind));
        };
        need(items.len() <= MFA_RULES, Misfit::Range)?;
        all_rules(alloc, items.as_slice())
    }
}

/// What options say of the methods: rules that are absent ask for nothing, and count unless the options say otherwise.
#[tactic(auto, unfolding(crate::specs::Factors::options_of))]
fn options(node: &Node) -> Result<MfaIn, ShapeRefusal>
    ensures { Reads result (options_of (place_of node.now)) }
{
    let enabled = node.optional(&["multi_factor_auth_enabled"], &Truth)?;
    let rules = match node.optional(&["multi_factor_auth_rules"], &MfaRules)? {
        Some(rules) => rules,
        None => Bytes::from_vec(Vec::new(node.alloc)),
    };
    Ok(MfaIn {
        enabled: enabled.unwrap_or(true),
        rules,
    })
}

/// The methods that the options of a user say, where it has options.
#[tactic(auto, unfolding(crate::specs::Factors::factors_at))]
pub fn factors(body: &Node) -> Result<Option<MfaIn>, ShapeRefusal>
    ensures { Reads result (factors_at (place_of body.now)) }
{
    let place = body.at(&["user", "options"])?;
    if unless_null(place.value()).is_none() {
        return Ok(None);
    }
    let said = options(&place)?;
    Ok(Some(said))
}
