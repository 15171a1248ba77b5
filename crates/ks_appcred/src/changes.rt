ghost use Rattle.std.specs.Prelude.{◌≡◌, ◌≢◌, not, filter, Err};
ghost use Rattle.ks_base.specs.AppCreds.{add_cred_fault, drop_cred_fault, is_on_project, lists_role, with_cred, without_cred, without_project, without_role, without_user};
ghost use Rattle.ks_base.specs.Refusals.{Changes, Decides};

use crate::AppCreds;
use ks_base::{AppCredRow, Id, RowFault, Test};

/// Whether the credential lists the role.
fn lists(row: &AppCredRow, role: &Id) -> bool
    ensures { result ≡ lists_role role.now row.now }
{
    row.roles.as_slice().iter().any(|other| other == role)
}

/// Credentials on other projects than this one.
#[derive(Drop)]
struct OnOtherProjects<'a> {
    project: &'a Id,
}

impl Test<AppCredRow> for OnOtherProjects<'_> {
    ghost test = { λ wanted row. not (is_on_project wanted.project.now row) };

    fn test(&self, row: &AppCredRow) -> bool {
        row.project != *self.project
    }
}

/// Credentials that do not list this role.
#[derive(Drop)]
struct WithoutRole<'a> {
    role: &'a Id,
}

impl Test<AppCredRow> for WithoutRole<'_> {
    ghost test = { λ wanted row. not (lists_role wanted.role.now row) };

    fn test(&self, row: &AppCredRow) -> bool {
        !lists(row, self.role)
    }
}

impl AppCreds {
    /// Adds a credential. Refused are a name that a credential of its user has (`NameTaken`, with that one's id), the
    /// 65,537th credential (`Full`) and an id that a credential has (`IdTaken`). Whatever is refused changes nothing.
    #[tactic(auto, using(ks_base::proofs::RefusalLemmas::refused))]
    pub fn add(&mut self, row: AppCredRow) -> Result<(), RowFault>
        ensures { Changes RowFault.Memory (add_cred_fault self.old row) self.old (with_cred row self.old) result self.new }
    {
        self.may_add(&row)?;
        self.creds.add(row)?;
        Ok(())
    }

    /// Takes a credential out. Refused is an id that no credential has (`Absent`). It takes no memory.
    pub fn drop_row(&mut self, id: &Id) -> Result<(), RowFault>
        ensures decides { Decides (drop_cred_fault self.old id.now) self.old (without_cred id.now self.old) result self.new }
        ensures memory { result ≢ Err RowFault.Memory }
    {
        self.may_drop_row(id)?;
        self.creds.remove(id);
        Ok(())
    }

    /// Takes the user's credentials out, for a user that goes. Only these are looked at. It takes no memory.
    pub fn drop_user(&mut self, user: &Id)
        ensures { self.new ≡ without_user user.now self.old }
    {
        self.creds.remove_within(user.as_slice());
    }

    /// Takes the credentials on the project out, for a project that goes. It goes through all credentials, and takes no
    /// memory.
    pub fn drop_project(&mut self, project: &Id)
        ensures { self.new ≡ without_project project.now self.old }
    {
        self.creds.keep(&OnOtherProjects { project });
    }

    /// Takes the credentials that list the role out, for a role that goes. It goes through all credentials, and takes
    /// no memory.
    pub fn drop_role(&mut self, role: &Id)
        ensures { self.new ≡ without_role role.now self.old }
    {
        self.creds.keep(&WithoutRole { role });
    }

    /// Leaves the credentials that pass the test, for which it goes through all, once. It takes no memory.
    pub fn keep<T: Test<AppCredRow>>(&mut self, test: &T)
        ensures { self.new ≡ filter (T.test test.now) self.old }
    {
        self.creds.keep(test);
    }
}
