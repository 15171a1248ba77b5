//! The catalog of the caller's own scope (Identity API v3, authentication).
ghost use Rattle.std.specs.Prelude.{◌≡◌, [], unwrap_or, IfOk};
ghost use Rattle.ks_auth.specs.Answers.{rows_told};
ghost use Rattle.ks_machine.specs.Attempts.{Go};
ghost use Rattle.ks_machine.specs.CatalogCommands.{show_catalog};
ghost use Rattle.ks_machine.specs.Login.{catalog_with};
ghost use Rattle.ks_checks.specs.Plans.{Plans, valid_of};

use ks_auth::Tables;
use ks_base::{Memory, Text};
use ks_catalog::ProjectCatalog;
use ks_checks::told::catalog_told;
use ks_checks::{Caller, Halt, Plan};
use ks_machine::BodyOut;
use ks_payload::Payload;
use std::alloc::Global;

/// The services of the scope; without a scope there are none.
fn services_of(alloc: Global, tables: &Tables, payload: &Payload) -> Result<ProjectCatalog, Memory>
    ensures { IfOk result (λ services. services ≡ unwrap_or (catalog_with (rows_told tables.now) payload.now) []) }
{
    match catalog_told(tables, payload)? {
        Some(services) => Ok(services),
        None => ProjectCatalog::empty(alloc),
    }
}

/// What the caller's own token tells of services.
#[inline(never)]
#[tactic(auto, unfolding(ks_machine::specs::CatalogCommands::show_catalog))]
pub fn show_catalog(alloc: Global, tables: &Tables, caller: &Caller) -> Result<Plan, Halt>
    ensures { Plans result (Go (show_catalog (rows_told tables.now) (valid_of caller.now))) }
{
    let services = services_of(alloc, tables, &caller.payload)?;
    let path = Text::of(alloc, "/v3/auth/catalog")?;
    Ok(Plan::tells(BodyOut::Catalog(services, path)))
}
