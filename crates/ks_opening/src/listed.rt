//! What the rows of an opening name, and whether it stands.
ghost use Rattle.std.specs.Prelude.{◌≡◌, IfOk, option_copied, take};
ghost use Rattle.std.specs.Option.{option_or};
ghost use Rattle.ks_base.specs.Refusals.{fault_in, first_of};
ghost use Rattle.ks_base.specs.Tables.{find_row, id_cmp};
ghost use Rattle.ks_machine.specs.Opened.{absent_fault, ids_fault, no_actor, no_domain, no_group, no_project, no_region, no_role, no_service, no_target, no_user, parent_absent, upper_region_absent};
ghost use Rattle.ks_policy.specs.Openings.{plain};
ghost use Rattle.ks_opening.specs.Opened.{TellsFault};
ghost use Rattle.ks_opening.specs.steps.Listed.{AreRowsOf, rows_listed};

use crate::check::{Check, CheckBehind, check_each, check_each_behind};
use crate::index::Index;
use ks_base::{
    Actor, DomainRow, EndpointRow, GrantRow, GroupRow, Id, ImplyRow, Kind, MemberRow, ProjectRow,
    RegionRow, RoleRow, ServiceRow, Target, UserRow, refuse_if,
};
use ks_machine::OpenFault;
use ks_policy::Opening;
use std::alloc::Global;

/// The rows of an opening, found by their ids.
pub(crate) struct Listed<'a> {
    pub(crate) domains: Index<'a, DomainRow>,
    pub(crate) projects: Index<'a, ProjectRow>,
    pub(crate) users: Index<'a, UserRow>,
    pub(crate) groups: Index<'a, GroupRow>,
    pub(crate) roles: Index<'a, RoleRow>,
    pub(crate) regions: Index<'a, RegionRow>,
    pub(crate) services: Index<'a, ServiceRow>,
    pub(crate) endpoints: Index<'a, EndpointRow>,
}

impl Drop for Listed<'_> {
    fn drop(self) {
        let Listed {
            domains: _,
            projects: _,
            users: _,
            groups: _,
            roles: _,
            regions: _,
            services: _,
            endpoints: _,
        } = self;
    }
}

impl<'a> Listed<'a> {
    /// Refuses the first row whose id an earlier one of its kind has.
    #[tactic(auto, unfolding(ks_machine::specs::Opened::ids_fault))]
    pub(crate) fn new(alloc: Global, opening: &'a Opening) -> Result<Listed<'a>, OpenFault>
        ensures rows { IfOk result (λ listed. AreRowsOf listed (plain opening.now)) }
        ensures tells { TellsFault (ids_fault (plain opening.now)) result }
    {
        Ok(Listed {
            domains: Index::new(alloc, Kind::Domain, opening.domains.as_slice())?,
            projects: Index::new(alloc, Kind::Project, opening.projects.as_slice())?,
            users: Index::new(alloc, Kind::User, opening.users.as_slice())?,
            groups: Index::new(alloc, Kind::Group, opening.groups.as_slice())?,
            roles: Index::new(alloc, Kind::Role, opening.roles.as_slice())?,
            regions: Index::new(alloc, Kind::Region, opening.regions.as_slice())?,
            services: Index::new(alloc, Kind::Service, opening.services.as_slice())?,
            endpoints: Index::new(alloc, Kind::Endpoint, opening.endpoints.as_slice())?,
        })
    }

    /// Refuses the first row that names a row which does not stand.
    #[tactic(auto, unfolding(ks_machine::specs::Opened::absent_fault))]
    pub(crate) fn check_references(&self, opening: &Opening) -> Result<(), OpenFault>
        requires { AreRowsOf self.now (plain opening.now) }
        ensures { fault_in result ≡ absent_fault (rows_listed self.now) (plain opening.now) }
    {
        check_each_behind(self, &opening.projects)?;
        check_each(self, &opening.users)?;
        check_each(self, &opening.groups)?;
        check_each(self, &opening.members)?;
        check_each(self, &opening.implications)?;
        check_each_behind(self, &opening.regions)?;
        check_each(self, &opening.endpoints)?;
        check_each(self, &opening.assignments)
    }

    /// The parent is the domain, or a project of the domain that comes before this place.
    fn parent_stands(&self, at: usize, row: &ProjectRow) -> Result<(), OpenFault>
        ensures { fault_in result ≡ parent_absent (take at self.now.projects) row.now }
    {
        if row.parent == row.domain {
            return Ok(());
        }
        match self.projects.get_before(at, &row.parent) {
            Some(parent) => refuse_if(
                parent.domain != row.domain,
                OpenFault::Absent(Kind::Project, row.parent),
            ),
            None => Err(OpenFault::Absent(Kind::Project, row.parent)),
        }
    }

    /// The region above comes before this place.
    fn upper_stands(&self, at: usize, row: &RegionRow) -> Result<(), OpenFault>
        ensures { fault_in result ≡ upper_region_absent (take at self.now.regions) row.now }
    {
        match row.parent {
            Some(upper) => {
                let absent = self.regions.get_before(at, &upper).is_none();
                refuse_if(absent, OpenFault::Absent(Kind::Region, upper))
            }
            None => Ok(()),
        }
    }

    fn domain_stands(&self, id: &Id) -> Result<(), OpenFault>
        ensures { fault_in result ≡ no_domain (rows_listed self.now) id.now }
    {
        let absent = self.domains.get(id).is_none();
        refuse_if(absent, OpenFault::Absent(Kind::Domain, *id))
    }

    fn project_stands(&self, id: &Id) -> Result<(), OpenFault>
        ensures { fault_in result ≡ no_project (rows_listed self.now) id.now }
    {
        let absent = self.projects.get(id).is_none();
        refuse_if(absent, OpenFault::Absent(Kind::Project, *id))
    }

    fn user_stands(&self, id: &Id) -> Result<(), OpenFault>
        ensures { fault_in result ≡ no_user (rows_listed self.now) id.now }
    {
        let absent = self.users.get(id).is_none();
        refuse_if(absent, OpenFault::Absent(Kind::User, *id))
    }

    fn group_stands(&self, id: &Id) -> Result<(), OpenFault>
        ensures { fault_in result ≡ no_group (rows_listed self.now) id.now }
    {
        let absent = self.groups.get(id).is_none();
        refuse_if(absent, OpenFault::Absent(Kind::Group, *id))
    }

    fn role_stands(&self, id: &Id) -> Result<(), OpenFault>
        ensures { fault_in result ≡ no_role (rows_listed self.now) id.now }
    {
        let absent = self.roles.get(id).is_none();
        refuse_if(absent, OpenFault::Absent(Kind::Role, *id))
    }

    fn actor_stands(&self, actor: &Actor) -> Result<(), OpenFault>
        ensures { fault_in result ≡ no_actor (rows_listed self.now) actor.now }
    {
        match actor {
            Actor::User(id) => self.user_stands(id),
            Actor::Group(id) => self.group_stands(id),
        }
    }

    fn service_stands(&self, id: &Id) -> Result<(), OpenFault>
        ensures { fault_in result ≡ no_service (rows_listed self.now) id.now }
    {
        let absent = self.services.get(id).is_none();
        refuse_if(absent, OpenFault::Absent(Kind::Service, *id))
    }

    /// The region stands, where one is named.
    fn region_stands(&self, region: &Option<Id>) -> Result<(), OpenFault>
        ensures { fault_in result ≡ no_region (rows_listed self.now) region.now }
    {
        match region {
            Some(id) => {
                let absent = self.regions.get(id).is_none();
                refuse_if(absent, OpenFault::Absent(Kind::Region, *id))
            }
            None => Ok(()),
        }
    }

    fn target_stands(&self, target: &Target) -> Result<(), OpenFault>
        ensures { fault_in result ≡ no_target (rows_listed self.now) target.now }
    {
        match target {
            Target::Project(id) => self.project_stands(id),
            Target::Domain(id) => self.domain_stands(id),
            Target::System => Ok(()),
        }
    }
}

/// The domain of a project stands, and its parent comes earlier, in the same domain.
impl CheckBehind<ProjectRow> for Listed<'_> {
    ghost rows = { λ listed. listed.projects };

    ghost fault_behind = { λ listed before row. option_or (no_domain (rows_listed listed) row.domain) (parent_absent before row) };

    fn check_behind(&self, at: usize, row: &ProjectRow) -> Result<(), OpenFault> {
        self.domain_stands(&row.domain)?;
        self.parent_stands(at, row)
    }
}

/// The region above a region comes earlier.
impl CheckBehind<RegionRow> for Listed<'_> {
    ghost rows = { λ listed. listed.regions };

    ghost fault_behind = { λ listed. upper_region_absent };

    fn check_behind(&self, at: usize, row: &RegionRow) -> Result<(), OpenFault> {
        self.upper_stands(at, row)
    }
}

impl Check<UserRow> for Listed<'_> {
    ghost fault = { λ listed row. no_domain (rows_listed listed) row.domain };

    fn check(&self, row: &UserRow) -> Result<(), OpenFault> {
        self.domain_stands(&row.domain)
    }
}

impl Check<GroupRow> for Listed<'_> {
    ghost fault = { λ listed row. no_domain (rows_listed listed) row.domain };

    fn check(&self, row: &GroupRow) -> Result<(), OpenFault> {
        self.domain_stands(&row.domain)
    }
}

impl Check<MemberRow> for Listed<'_> {
    ghost fault = { λ listed row. option_or (no_group (rows_listed listed) row.group) (no_user (rows_listed listed) row.user) };

    fn check(&self, row: &MemberRow) -> Result<(), OpenFault> {
        self.group_stands(&row.group)?;
        self.user_stands(&row.user)
    }
}

impl Check<ImplyRow> for Listed<'_> {
    ghost fault = { λ listed row. option_or (no_role (rows_listed listed) row.prior) (no_role (rows_listed listed) row.implied) };

    fn check(&self, row: &ImplyRow) -> Result<(), OpenFault> {
        self.role_stands(&row.prior)?;
        self.role_stands(&row.implied)
    }
}

impl Check<EndpointRow> for Listed<'_> {
    ghost fault = { λ listed row. option_or (no_service (rows_listed listed) row.service) (no_region (rows_listed listed) row.region) };

    fn check(&self, row: &EndpointRow) -> Result<(), OpenFault> {
        self.service_stands(&row.service)?;
        self.region_stands(&row.region)
    }
}

impl Check<GrantRow> for Listed<'_> {
    ghost use Rattle.std.specs.Prelude.{[], ◌∷◌};

    ghost fault = { λ listed row. first_of (no_actor (rows_listed listed) row.actor ∷ no_target (rows_listed listed) row.target ∷ no_role (rows_listed listed) row.role ∷ []) };

    fn check(&self, row: &GrantRow) -> Result<(), OpenFault> {
        self.actor_stands(&row.actor)?;
        self.target_stands(&row.target)?;
        self.role_stands(&row.role)
    }
}
