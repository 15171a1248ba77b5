ghost use Rattle.std.specs.Prelude.{◌≡◌, ◌≢◌, IsSome, IsSomeAnd, Err};
ghost use Rattle.ks_base.specs.Refusals.{Changes, Decides};
ghost use Rattle.ks_base.specs.Rows.{domain_of, project_of};
ghost use Rattle.ks_base.specs.Trees.{with_domain, with_project, without_domain, without_project};
ghost use Rattle.ks_base.specs.TreeFaults.{add_domain_fault, add_project_fault, set_domain_fault, set_project_fault, drop_domain_fault, drop_project_fault};

use crate::Tree;
use ks_base::{DomainRow, Id, Outside, ProjectRow, TreeFault};

impl Tree {
    /// Adds a domain. Refused are a name that a domain has (`NameTaken`), the 1,025th domain (`Full`) and an id
    /// that a domain has (`IdTaken`). Whatever is refused changes nothing.
    #[tactic(auto, using(ks_base::proofs::RefusalLemmas::refused))]
    pub fn add_domain(&mut self, row: DomainRow) -> Result<(), TreeFault>
        ensures { Changes TreeFault.Memory (add_domain_fault self.old row) self.old (with_domain row self.old) result self.new }
    {
        self.may_add_domain(&row)?;
        self.domains.put(row)?;
        Ok(())
    }

    /// Adds a project. Refused are a domain or a parent that does not stand (`Absent`), a parent in another
    /// domain (`NoParent`), a project more than 5 below its domain (`TooDeep`) or below a disabled one
    /// (`DisabledAbove`), a name that a project of the domain has (`NameTaken`), the 65,537th project (`Full`)
    /// and an id that a project has (`IdTaken`).
    #[tactic(auto, using(ks_base::proofs::RefusalLemmas::refused))]
    pub fn add_project(&mut self, row: ProjectRow) -> Result<(), TreeFault>
        ensures { Changes TreeFault.Memory (add_project_fault self.old row) self.old (with_project row self.old) result self.new }
    {
        self.may_add_project(&row)?;
        self.projects.put(row)?;
        Ok(())
    }

    /// Puts the row in the place of the domain with its id. Refused is a name that another domain has
    /// (`NameTaken`). It takes no memory.
    #[tactic(auto, using(ks_base::proofs::RefusalLemmas::refused), unfolding(ks_base::specs::TreeFaults::set_domain_fault))]
    pub fn set_domain(&mut self, row: DomainRow) -> Result<(), TreeFault>
        requires { IsSome (domain_of row.id self.old.domains) }
        ensures changes { Changes TreeFault.Memory (set_domain_fault self.old row) self.old (with_domain row self.old) result self.new }
        ensures memory { result ≢ Err TreeFault.Memory }
    {
        self.may_set_domain(&row)?;
        self.domains.put(row)?;
        Ok(())
    }

    /// Puts the row in the place of the project with its id. Refused are to disable it where an enabled project
    /// lies below it (`EnabledBelow`), to enable it where a disabled one lies above it (`DisabledAbove`), and a
    /// name that another project of the domain has (`NameTaken`). It takes no memory.
    #[tactic(auto, using(ks_base::proofs::RefusalLemmas::refused), unfolding(ks_base::specs::TreeFaults::set_project_fault, ks_base::specs::TreeFaults::disable_fault, ks_base::specs::TreeFaults::enable_fault))]
    pub fn set_project(&mut self, row: ProjectRow) -> Result<(), TreeFault>
        requires { IsSomeAnd (project_of row.id self.old.projects) (λ standing. (standing.domain ≡ row.domain) × (standing.parent ≡ row.parent)) }
        ensures changes { Changes TreeFault.Memory (set_project_fault self.old row) self.old (with_project row self.old) result self.new }
        ensures memory { result ≢ Err TreeFault.Memory }
    {
        self.may_set_project(&row)?;
        self.projects.put(row)?;
        Ok(())
    }

    /// Takes a disabled domain out, with all its projects. Refused are an id that no domain has (`Absent`) and
    /// an enabled domain (`DomainEnabled`).
    #[tactic(auto, unfolding(ks_base::specs::TreeFaults::drop_domain_fault))]
    pub fn drop_domain(&mut self, id: &Id) -> Result<(), TreeFault>
        ensures decides { Decides (drop_domain_fault self.old id.now) self.old (without_domain id.now self.old) result self.new }
        ensures memory { result ≢ Err TreeFault.Memory }
    {
        self.may_drop_domain(id)?;
        self.domains.remove(id);
        self.projects.keep(&Outside { domain: id });
        Ok(())
    }

    /// Takes a project out. Refused are an id that no project has (`Absent`) and a project with others right
    /// below it (`HasChildren`).
    #[tactic(auto, unfolding(ks_base::specs::TreeFaults::drop_project_fault))]
    pub fn drop_project(&mut self, id: &Id) -> Result<(), TreeFault>
        ensures decides { Decides (drop_project_fault self.old id.now) self.old (without_project id.now self.old) result self.new }
        ensures memory { result ≢ Err TreeFault.Memory }
    {
        self.may_drop_project(id)?;
        self.projects.remove(id);
        Ok(())
    }
}
