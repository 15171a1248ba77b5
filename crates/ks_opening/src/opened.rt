//! What a server opens with.
ghost use Rattle.std.specs.Prelude.{◌≡◌, IfOk};
ghost use Rattle.ks_machine.specs.Opened.{open_fault, opened_state};
ghost use Rattle.ks_opening.specs.Opened.{TellsFault, state_of};
ghost use Rattle.ks_opening.specs.steps.Listed.{listed_fault};
ghost use Rattle.ks_policy.specs.Openings.{plain};

use crate::filled::Filled;
use crate::listed::Listed;
use crate::names::check_names;
use ks_assign::Grants;
use ks_catalog::Catalog;
use ks_machine::{OpenFault, Settings};
use ks_people::People;
use ks_policy::{Opening, Rules};
use ks_ring::Ring;
use ks_roles::Roles;
use ks_tree::Tree;
use std::alloc::Global;

/// What a server opens with: its settings and rules, the ring of its keys, and its rows in their tables. No trust, no
/// application credential and no second factor stands.
#[derive(Drop)]
pub struct OpenedTables {
    pub settings: Settings,
    pub rules: Rules,
    pub ring: Ring,
    pub tree: Tree,
    pub people: People,
    pub roles: Roles,
    pub grants: Grants,
    pub catalog: Catalog,
}

/// Puts the rows of an opening into their tables, and its keys into a ring. A membership, implication or grant that is listed
/// twice stands once.
///
/// Refused is, in this order, each kind in the order of the opening and each list in its own:
/// - a row whose id an earlier one of its kind has (`IdRepeated`);
/// - a row whose name an earlier one of its kind has, in its domain where it lies in one (`Name`, with the id of the
///   earlier one);
/// - a row that names a domain, project, user, group, role, region or service which does not stand, a project whose parent
///   does not come before it, in its domain, or a region whose parent does not come before it (`Absent`, with what is
///   missing);
/// - a project more than 5 levels below its domain (`TooDeep`);
/// - a project below a disabled one (`DisabledAbove`, with the nearest disabled one);
/// - an implication of the role named `admin` (`Prohibited`, with that role);
/// - more rows of a kind than may stand (`Full`);
/// - keys that are no ring (`Ring`).
///
/// Memory may end at any time (`Memory`).
pub fn open_tables(alloc: Global, opening: Opening) -> Result<OpenedTables, OpenFault>
    ensures state { IfOk result (λ opened. state_of opened ≡ opened_state (plain opening)) }
    ensures fault { TellsFault (open_fault (plain opening)) result }
{
    check_opening(alloc, &opening)?;
    let Ok(filled) = Filled::of(alloc, opening) else {
        return Err(OpenFault::Memory);
    };
    filled.check_full()?;
    let ring = filled.ring()?;
    Ok(filled.with_ring(ring))
}

/// Refuses the first fault of the rows, before it is seen how many they are.
fn check_opening(alloc: Global, opening: &Opening) -> Result<(), OpenFault>
    ensures { TellsFault (listed_fault (plain opening.now)) result }
{
    let listed = Listed::new(alloc, opening)?;
    check_names(alloc, opening)?;
    listed.check_rows(opening)
}
