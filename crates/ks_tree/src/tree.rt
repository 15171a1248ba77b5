ghost use Rattle.std.specs.Prelude.{◌≡◌, [], find, option_copied};
ghost use Rattle.ks_base.specs.Rows.{domain_of, project_of};
ghost use Rattle.ks_base.specs.Tables.{id_cmp, IsAscending};
ghost use Rattle.ks_base.specs.Trees.{is_domain_named, is_project_named};

use ks_base::{DomainRow, Id, ProjectRow, Text};
use ks_index::{Rows, Table};
use std::alloc::Global;
use std::marker::Model;

/// Domains, and the projects that lie in them as trees.
pub struct Tree {
    pub(crate) alloc: Global,
    pub(crate) domains: Table<DomainRow>,
    pub(crate) projects: Table<ProjectRow>,
}

impl Drop for Tree {
    fn drop(self) {
        let Tree {
            alloc: _,
            domains: _,
            projects: _,
        } = self;
    }
}

impl Model for Tree {
    ghost use Rattle.ks_base.specs.Trees.{TreeState};

    ghost Value = { TreeState };

    ghost view = { λ tree. record { domains = tree.domains; projects = tree.projects } };
}

impl Tree {
    /// A state without domains and projects, which takes no memory yet.
    pub fn new(alloc: Global) -> Tree
        ensures { result ≡ record { domains = []; projects = [] } }
    {
        Tree {
            alloc,
            domains: Table::new(alloc),
            projects: Table::new(alloc),
        }
    }

    /// The state of these domains and projects.
    pub fn from_tables(
        alloc: Global,
        domains: Table<DomainRow>,
        projects: Table<ProjectRow>,
    ) -> Tree
        ensures { result ≡ record { domains = domains; projects = projects } }
    {
        Tree {
            alloc,
            domains,
            projects,
        }
    }

    /// All domains, in the order of their ids.
    pub fn domains(&self) -> Rows<'_, DomainRow>
        ensures { result ≡ self.now.domains }
    {
        self.domains.rows()
    }

    /// All projects, in the order of their ids.
    pub fn projects(&self) -> Rows<'_, ProjectRow>
        ensures { result ≡ self.now.projects }
    {
        self.projects.rows()
    }

    /// The domain with this id.
    pub fn domain(&self, id: &Id) -> Option<&DomainRow>
        ensures found { option_copied result ≡ domain_of id.now self.now.domains }
        ensures ascending { IsAscending id_cmp (λ row. row.id) self.now.domains }
    {
        self.domains.get(id)
    }

    /// The project with this id.
    pub fn project(&self, id: &Id) -> Option<&ProjectRow>
        ensures found { option_copied result ≡ project_of id.now self.now.projects }
        ensures ascending { IsAscending id_cmp (λ row. row.id) self.now.projects }
    {
        self.projects.get(id)
    }

    /// The domain with this name, compared by bytes.
    pub fn domain_named(&self, name: &Text) -> Option<&DomainRow>
        ensures { option_copied result ≡ find (is_domain_named name.now) self.now.domains }
    {
        self.domains.named(&[], name)
    }

    /// The project of this domain with this name, compared by bytes.
    pub fn project_named(&self, domain: &Id, name: &Text) -> Option<&ProjectRow>
        ensures { option_copied result ≡ find (is_project_named domain.now name.now) self.now.projects }
    {
        self.projects.named(domain.as_slice(), name)
    }
}
