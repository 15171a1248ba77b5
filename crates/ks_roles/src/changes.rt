ghost use Rattle.std.specs.Prelude.{◌≡◌, ◌≢◌, not, None, Ok, Err, false, IfOk, IsTrue};
ghost use Rattle.ks_base.specs.Refusals.{Changes, Decides};
ghost use Rattle.ks_base.specs.RoleLists.{is_implication, with_role, without_role, with_implication, without_implication};
ghost use Rattle.ks_base.specs.RoleFaults.{add_fault, set_fault, drop_fault, imply_fault, unimply_fault};

use crate::Roles;
use crate::named::Without;
use ks_base::{Id, ImplyRow, RoleRow, RowFault};

impl Roles {
    /// Adds a role. Refused are a name that a role has (`NameTaken`), the 1,025th role (`Full`) and an id that a
    /// role has (`IdTaken`). Whatever is refused changes nothing.
    #[tactic(auto, using(ks_base::proofs::RefusalLemmas::refused))]
    pub fn add(&mut self, row: RoleRow) -> Result<(), RowFault>
        ensures { Changes RowFault.Memory (add_fault self.old row) self.old (with_role row self.old) result self.new }
    {
        self.may_add(&row)?;
        self.roles.put(row)?;
        Ok(())
    }

    /// Puts the row in the place of the role with its id. Refused are an id that no role has (`Absent`) and a
    /// name that another role has (`NameTaken`). It takes no memory.
    #[tactic(auto, using(ks_base::proofs::RefusalLemmas::refused), unfolding(ks_base::specs::RoleFaults::set_fault))]
    pub fn set(&mut self, row: RoleRow) -> Result<(), RowFault>
        ensures changes { Changes RowFault.Memory (set_fault self.old row) self.old (with_role row self.old) result self.new }
        ensures memory { result ≢ Err RowFault.Memory }
    {
        self.may_set(&row)?;
        self.roles.put(row)?;
        Ok(())
    }

    /// Takes a role out, with every implication that names it. Refused is an id that no role has (`Absent`).
    pub fn drop_role(&mut self, id: &Id) -> Result<(), RowFault>
        ensures decides { Decides (drop_fault self.old id.now) self.old (without_role id.now self.old) result self.new }
        ensures memory { result ≢ Err RowFault.Memory }
    {
        self.stands(id)?;
        self.roles.remove(id);
        self.implications.keep(&Without { role: id });
        Ok(())
    }

    /// Lets the prior role imply the other, and says whether that is new; an implication that stands is no
    /// change and takes no memory. Refused are ids that no role has (`Absent`, the prior role first), a role
    /// named `admin` as the implied one (`Prohibited`, also where the implication stands) and the 8,193rd
    /// implication (`Full`). A role may imply itself, also by way of others.
    #[tactic(auto, using(ks_base::proofs::RefusalLemmas::refused), unfolding(ks_base::specs::RoleFaults::imply_fault))]
    pub fn imply(&mut self, row: ImplyRow) -> Result<bool, RowFault>
        ensures changes { Changes RowFault.Memory (imply_fault self.old row) self.old (with_implication row self.old) result self.new }
        ensures new { IfOk result (λ new. new ≡ not (is_implication row self.old.implications)) }
        ensures standing { imply_fault self.old row ≡ None → IsTrue (is_implication row self.old.implications) → (result ≡ Ok false) × (self.new ≡ self.old) }
        ensures memory { IsTrue (is_implication row self.old.implications) → result ≢ Err RowFault.Memory }
    {
        self.may_imply(&row)?;
        Ok(self.implications.add(row)?)
    }

    /// Takes an implication back. Refused are ids that no role has (`Absent`, the prior role first) and an
    /// implication that does not stand (`Absent`, with the implied role).
    #[tactic(auto, unfolding(ks_base::specs::RoleFaults::unimply_fault))]
    pub fn unimply(&mut self, row: &ImplyRow) -> Result<(), RowFault>
        ensures decides { Decides (unimply_fault self.old row.now) self.old (without_implication row.now self.old) result self.new }
        ensures memory { result ≢ Err RowFault.Memory }
    {
        self.may_unimply(row)?;
        let _stood = self.implications.remove(row);
        Ok(())
    }
}
