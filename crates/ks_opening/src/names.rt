//! Names that only one row may have.
ghost use Rattle.ks_machine.specs.Opened.{first_fault, name_repeated, names_fault};
ghost use Rattle.ks_policy.specs.Openings.{plain};
ghost use Rattle.ks_opening.specs.Opened.{TellsFault};
ghost use Rattle.ks_opening.specs.steps.Indexed.{has_name_of};

use ks_base::{Kind, Named};
use ks_machine::OpenFault;
use ks_policy::Opening;
use std::alloc::Global;
use std::collections::BTreeMap;

/// Refuses the first row whose name an earlier one of its kind and home has, and tells that one.
#[tactic(auto, unfolding(ks_machine::specs::Opened::names_fault))]
pub(crate) fn check_names(alloc: Global, opening: &Opening) -> Result<(), OpenFault>
    ensures { TellsFault (names_fault (plain opening.now)) result }
{
    check_names_of(alloc, Kind::Domain, opening.domains.as_slice())?;
    check_names_of(alloc, Kind::Project, opening.projects.as_slice())?;
    check_names_of(alloc, Kind::User, opening.users.as_slice())?;
    check_names_of(alloc, Kind::Group, opening.groups.as_slice())?;
    check_names_of(alloc, Kind::Role, opening.roles.as_slice())
}

fn check_names_of<R: Named>(alloc: Global, kind: Kind, rows: &[R]) -> Result<(), OpenFault>
    ensures { TellsFault (first_fault (name_repeated kind R.key (has_name_of R.within R.naming)) rows.now) result }
{
    let mut named = BTreeMap::new(alloc);
    for row in rows {
        let Ok(earlier) = named.insert((row.home(), row.name().as_slice()), *row.id()) else {
            return Err(OpenFault::Memory);
        };
        if let Some(id) = earlier {
            return Err(OpenFault::Name(kind, id));
        }
    }
    Ok(())
}
