ghost use Rattle.std.specs.Prelude.{◌≡◌, filter, map, IfOk};
ghost use Rattle.ks_base.specs.Rows.{same};
ghost use Rattle.ks_base.specs.Tree.{ancestors};
ghost use Rattle.ks_base.specs.Trees.{is_domain_named, projects_of, domain_ids};

use crate::Tree;
use ks_base::{Id, IdList, InDomain, Memory, Text};

impl Tree {
    /// The ids of the projects above this one, the nearest first; none, where no project has this id.
    #[tactic(auto, unfolding(ks_base::specs::Tree::ancestors_in))]
    pub fn ancestors(&self, id: &Id) -> Result<IdList, Memory>
        ensures { IfOk result (λ ids. ids ≡ ancestors self.now.projects id.now) }
    {
        let mut ids = IdList::new(self.alloc);
        let Some(mut top) = self.project(id) else {
            return Ok(ids);
        };
        'up: for _ in 0..self.projects.len() {
            let Some(parent) = self.parent(top) else {
                return Ok(ids);
            };
            ids.push(parent.id)?;
            top = parent;
        }
        Ok(ids)
    }

    /// The ids of the domain's projects, in their order.
    pub fn projects_of(&self, domain: &Id) -> Result<IdList, Memory>
        ensures { IfOk result (λ ids. ids ≡ projects_of domain.now self.now) }
    {
        self.projects.ids_where(&InDomain { domain })
    }

    /// The ids of the projects of this name in all domains, in their order. No other projects are gone through.
    pub fn projects_named(&self, name: &Text) -> Result<IdList, Memory>
        ensures { IfOk result (λ ids. ids ≡ map (λ row. row.id) (filter (λ row. same row.name name.now) self.now.projects)) }
    {
        self.projects.ids_named(name)
    }

    /// The ids of the domains of this name, of which there is one at most. No other domains are gone through.
    pub fn domains_named(&self, name: &Text) -> Result<IdList, Memory>
        ensures { IfOk result (λ ids. ids ≡ map (λ row. row.id) (filter (is_domain_named name.now) self.now.domains)) }
    {
        self.domains.ids_named(name)
    }

    /// The ids of all domains, in their order.
    pub fn domain_ids(&self) -> Result<IdList, Memory>
        ensures { IfOk result (λ ids. ids ≡ domain_ids self.now) }
    {
        self.domains.ids()
    }
}
