//! How many rows may stand.
ghost use Rattle.std.specs.Prelude.{◌≡◌, []};
ghost use Rattle.ks_base.specs.declared.limits.TheConstants.{DOMAINS, ENDPOINTS, GRANTS, GROUPS, IMPLICATIONS, MEMBERS, PROJECTS, REGIONS, ROLES, SERVICES, USERS};
ghost use Rattle.ks_base.specs.Limits.{limit};
ghost use Rattle.ks_base.specs.Refusals.{fault_in};
ghost use Rattle.ks_machine.specs.Opened.{full, full_fault};
ghost use Rattle.ks_opening.specs.Opened.{no_factors, rows_in};

use ks_assign::Grants;
use ks_base::limits::{
    DOMAINS, ENDPOINTS, GRANTS, GROUPS, IMPLICATIONS, MEMBERS, PROJECTS, REGIONS, ROLES, SERVICES,
    USERS,
};
use ks_base::{Kind, refuse_if};
use ks_catalog::Catalog;
use ks_machine::OpenFault;
use ks_people::People;
use ks_roles::Roles;
use ks_tree::Tree;

/// Refuses more rows of a kind than may stand.
fn check_limit(kind: Kind, rows: usize, most: usize) -> Result<(), OpenFault>
    requires { most ≡ limit kind }
    ensures { fault_in result ≡ full kind rows }
{
    refuse_if(rows > most, OpenFault::Full(kind))
}

/// Refuses the first kind of which there are too many rows.
#[tactic(auto, unfolding(ks_machine::specs::Opened::full_fault))]
pub(crate) fn check_full(
    tree: &Tree,
    people: &People,
    roles: &Roles,
    grants: &Grants,
    catalog: &Catalog,
) -> Result<(), OpenFault>
    ensures { fault_in result ≡ full_fault (rows_in tree.now people.now roles.now grants.now [] catalog.now [] no_factors) }
{
    check_limit(Kind::Domain, tree.domains().len(), DOMAINS)?;
    check_limit(Kind::Project, tree.projects().len(), PROJECTS)?;
    check_limit(Kind::User, people.users().len(), USERS)?;
    check_limit(Kind::Group, people.groups().len(), GROUPS)?;
    check_limit(Kind::Member, people.members().len(), MEMBERS)?;
    check_limit(Kind::Role, roles.roles().len(), ROLES)?;
    check_limit(Kind::Implication, roles.implications().len(), IMPLICATIONS)?;
    check_limit(Kind::Region, catalog.regions().len(), REGIONS)?;
    check_limit(Kind::Service, catalog.services().len(), SERVICES)?;
    check_limit(Kind::Endpoint, catalog.endpoints().len(), ENDPOINTS)?;
    check_limit(Kind::Grant, grants.iter().len(), GRANTS)
}
