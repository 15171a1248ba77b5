//! What rows are called.
ghost use Rattle.std.specs.Prelude.{◌≡◌, IfOk};
ghost use Rattle.ks_auth.specs.Answers.{rows_told};
ghost use Rattle.ks_machine.specs.Scopes.{homed_project, homed_user, titled_domain, titled_role, titled_roles};

use ks_auth::Tables;
use ks_base::{Id, Memory, ProjectRow, Text, UserRow};
use ks_machine::{Homed, Titled, TitledList};
use std::alloc::Global;

/// The domain's id with its name, which is empty where no domain has the id.
pub fn titled_domain(alloc: Global, tables: &Tables, id: &Id) -> Result<Titled, Memory>
    ensures { IfOk result (λ titled. titled ≡ titled_domain (rows_told tables.now) id.now) }
{
    match tables.tree.domain(id) {
        Some(row) => Ok(Titled {
            id: *id,
            name: row.name.copy()?,
        }),
        None => Ok(Titled {
            id: *id,
            name: Text::of(alloc, "")?,
        }),
    }
}

/// The role's id with its name, which is empty where no role has the id.
pub fn titled_role(alloc: Global, tables: &Tables, id: &Id) -> Result<Titled, Memory>
    ensures { IfOk result (λ titled. titled ≡ titled_role (rows_told tables.now) id.now) }
{
    match tables.roles.role(id) {
        Some(row) => Ok(Titled {
            id: *id,
            name: row.name.copy()?,
        }),
        None => Ok(Titled {
            id: *id,
            name: Text::of(alloc, "")?,
        }),
    }
}

/// The roles' ids with their names.
pub fn titled_roles(alloc: Global, tables: &Tables, ids: &[Id]) -> Result<TitledList, Memory>
    ensures { IfOk result (λ all. all ≡ titled_roles (rows_told tables.now) ids.now) }
{
    let mut all = TitledList::new(alloc);
    for id in ids {
        all.push(titled_role(alloc, tables, id)?)?;
    }
    Ok(all)
}

/// The user's id and name, and the domain in which it has that name.
pub fn homed_user(alloc: Global, tables: &Tables, row: &UserRow) -> Result<Homed, Memory>
    ensures { IfOk result (λ homed. homed ≡ homed_user (rows_told tables.now) row.now) }
{
    Ok(Homed {
        id: row.id,
        name: row.name.copy()?,
        domain: titled_domain(alloc, tables, &row.domain)?,
    })
}

/// The project's id and name, and the domain in which it has that name.
pub fn homed_project(alloc: Global, tables: &Tables, row: &ProjectRow) -> Result<Homed, Memory>
    ensures { IfOk result (λ homed. homed ≡ homed_project (rows_told tables.now) row.now) }
{
    Ok(Homed {
        id: row.id,
        name: row.name.copy()?,
        domain: titled_domain(alloc, tables, &row.domain)?,
    })
}
