ghost use Rattle.std.specs.Prelude.{IfOk};
ghost use Rattle.ks_drill.specs.Drill.{AreDefault};

use ks_base::Memory;
use ks_policy::Rules;
use std::alloc::Global;

/// The rules of a policy that says nothing.
pub(crate) fn default_rules(alloc: Global) -> Result<Rules, Memory>
    ensures { IfOk result AreDefault }
{
    match Rules::load_default(alloc) {
        Ok(rules) => Ok(rules),
        // The default rules are rules, so that only memory can be wanting.
        Err(_) => Err(Memory),
    }
}
