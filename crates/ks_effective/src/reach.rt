ghost use Rattle.std.specs.Prelude.{◌≡◌, ◌↔◌, ◌++◌, IfOk, OnOk};
ghost use Rattle.ks_base.specs.declared.grants.GrantRow.{GrantRow};
ghost use Rattle.ks_base.specs.Orders.{grant_cmp, site_of};
ghost use Rattle.ks_base.specs.Roles.{Reaches};
ghost use Rattle.ks_base.specs.Tables.{Among, IsAscending};
ghost use Rattle.ks_effective.specs.Granted.{roles_at, roles_over};
ghost use Rattle.ks_effective.specs.Reach.{on_domain, on_projects, sites};

use ks_base::{Actor, Boxed, GrantRow, GrantSite, Id, IdList, Memory, Target, run_of};
use ks_tree::Tree;

/// Where the grants stand that reach a target.
#[derive(Drop)]
pub enum Reach {
    /// The system: on itself, not inherited.
    System,
    /// A domain: on itself, not inherited.
    Domain(Id),
    /// A project: on itself, not inherited, and inherited on its domain, if it stands, and on its ancestors.
    Project {
        id: Id,
        domain: Option<Id>,
        ancestors: IdList,
    },
}

impl Reach {
    /// Where the grants stand that reach this target.
    pub fn of(tree: &Tree, target: &Target) -> Result<Reach, Memory>
        ensures { IfOk result (λ reach. (row : GrantRow) → Among (sites row.actor reach) (site_of row) ↔ Reaches tree.now.projects row.inherited row.target target.now) }
    {
        match target {
            Target::System => Ok(Reach::System),
            Target::Domain(id) => Ok(Reach::Domain(*id)),
            Target::Project(id) => Ok(Reach::Project {
                id: *id,
                domain: tree.project(id).map(|row| row.domain),
                ancestors: tree.ancestors(id)?,
            }),
        }
    }
}

/// The grants of one actor, in their order.
#[derive(Clone, Copy)]
pub struct GrantsOf<'a> {
    pub actor: Actor,
    pub rows: &'a [Boxed<GrantRow>],
}

impl GrantsOf<'_> {
    /// Adds the roles of those grants that reach the target.
    pub fn add_roles(&self, reach: &Reach, roles: &mut IdList) -> Result<(), Memory>
        requires { IsAscending grant_cmp (λ row. row) self.now.rows.now }
        ensures { OnOk result (roles.new ≡ roles.old ++ roles_over self.now.rows.now (sites self.now.actor reach.now)) }
    {
        match reach {
            Reach::System => self.add_at(Target::System, false, roles),
            Reach::Domain(id) => self.add_at(Target::Domain(*id), false, roles),
            Reach::Project {
                id,
                domain,
                ancestors,
            } => {
                self.add_at(Target::Project(*id), false, roles)?;
                self.add_on_domain(*domain, roles)?;
                self.add_on_projects(ancestors.as_slice(), roles)
            }
        }
    }

    /// Adds the roles of those that are inherited from the domain.
    fn add_on_domain(&self, domain: Option<Id>, roles: &mut IdList) -> Result<(), Memory>
        requires { IsAscending grant_cmp (λ row. row) self.now.rows.now }
        ensures { OnOk result (roles.new ≡ roles.old ++ roles_over self.now.rows.now (on_domain self.now.actor domain)) }
    {
        match domain {
            Some(id) => self.add_at(Target::Domain(id), true, roles),
            None => Ok(()),
        }
    }

    /// Adds the roles of those that are inherited from these projects.
    fn add_on_projects(&self, projects: &[Id], roles: &mut IdList) -> Result<(), Memory>
        requires { IsAscending grant_cmp (λ row. row) self.now.rows.now }
        ensures { OnOk result (roles.new ≡ roles.old ++ roles_over self.now.rows.now (on_projects self.now.actor projects.now)) }
    {
        for id in projects {
            self.add_at(Target::Project(*id), true, roles)?;
        }
        Ok(())
    }

    /// Adds the roles of those at the target that are inherited from it, or of those that are not.
    fn add_at(&self, target: Target, inherited: bool, roles: &mut IdList) -> Result<(), Memory>
        requires { IsAscending grant_cmp (λ row. row) self.now.rows.now }
        ensures { OnOk result (roles.new ≡ roles.old ++ roles_at self.now.rows.now (record { actor = self.now.actor; target = target; inherited = inherited })) }
    {
        let site = GrantSite {
            actor: self.actor,
            target,
            inherited,
        };
        let standing = run_of(self.rows, &site);
        for row in standing {
            roles.push(row.get().role)?;
        }
        Ok(())
    }
}
