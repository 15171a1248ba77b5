ghost use Rattle.ks_json.specs.View.{view};
ghost use Rattle.ks_policy.specs.Loading.{Loads};
ghost use Rattle.ks_setup.specs.Openings.{policy_in};

use ks_json::Value;
use ks_policy::{PolicyFault, Rules};
use std::alloc::Global;

/// The rules of a policy.
fn load(alloc: Global, policy: &Value<'_>) -> Result<Rules, PolicyFault>
    ensures { Loads (view policy.now) result }
{
    let Ok(owned) = policy.owned(alloc) else {
        return Err(PolicyFault::Memory);
    };
    let loaded = Rules::load(alloc, &owned);
    drop(owned);
    loaded
}

/// The rules of the policy of a file. A file without one has the default rules.
pub(crate) fn load_policy(alloc: Global, file: &Value<'_>) -> Result<Rules, PolicyFault>
    ensures { Loads (policy_in (view file.now)) result }
{
    match file.get("policy") {
        Some(policy) if !policy.is_null() => load(alloc, policy),
        _ => Rules::load_default(alloc),
    }
}
