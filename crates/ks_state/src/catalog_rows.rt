//! Regions, services and endpoints that come, change or go. No token ends with them.
ghost use Rattle.std.specs.Prelude.{◌≡◌, OnOk, OnErr};
ghost use Rattle.ks_base.specs.declared.catalog.CatalogRow.{CatalogRow};
ghost use Rattle.ks_base.specs.Catalog.{KeepsParent, with_endpoint, with_region, with_service};
ghost use Rattle.ks_machine.specs.declared.change.Change.{Change};
ghost use Rattle.ks_state.specs.Shown.{FitsWithRoom, Makes};

use crate::Identity;
use crate::unmade::Unmade;
use ks_base::{EndpointRow, Id, Memory, RegionRow, ServiceRow};
use ks_catalog::Catalog;
use ks_machine::Change;

impl Identity {
    #[tactic(auto, unfolding(ks_machine::specs::Lawful::Fits, ks_machine::specs::Changes::apply, ks_machine::specs::Changes::effect))]
    pub(crate) fn put_region(&mut self, row: RegionRow, most: usize) -> Result<(), Unmade>
        requires { FitsWithRoom most self.old (Change.PutRegion row) }
        ensures { Makes most self.old (Change.PutRegion row) result self.new }
    {
        let standing = row.copy()?;
        self.log.ready(most, 0)?;
        put_region(&mut self.catalog, standing)?;
        self.log.write(&[], Change::PutRegion(row));
        Ok(())
    }

    #[tactic(auto, unfolding(ks_machine::specs::Changes::apply, ks_machine::specs::Changes::effect))]
    pub(crate) fn put_service(&mut self, row: ServiceRow, most: usize) -> Result<(), Unmade>
        ensures { Makes most self.old (Change.PutService row) result self.new }
    {
        let standing = row.copy()?;
        self.log.ready(most, 0)?;
        put_service(&mut self.catalog, standing)?;
        self.log.write(&[], Change::PutService(row));
        Ok(())
    }

    #[tactic(auto, unfolding(ks_machine::specs::Changes::apply, ks_machine::specs::Changes::effect))]
    pub(crate) fn put_endpoint(&mut self, row: EndpointRow, most: usize) -> Result<(), Unmade>
        ensures { Makes most self.old (Change.PutEndpoint row) result self.new }
    {
        let standing = row.copy()?;
        self.log.ready(most, 0)?;
        put_endpoint(&mut self.catalog, standing)?;
        self.log.write(&[], Change::PutEndpoint(row));
        Ok(())
    }

    #[tactic(auto, unfolding(ks_machine::specs::Lawful::Fits, ks_machine::specs::Changes::apply, ks_machine::specs::Changes::effect))]
    pub(crate) fn drop_region(&mut self, id: Id, most: usize) -> Result<(), Unmade>
        requires { FitsWithRoom most self.old (Change.DropRegion id) }
        ensures { Makes most self.old (Change.DropRegion id) result self.new }
    {
        self.log.ready(most, 0)?;
        let Ok(()) = self.catalog.drop_region(&id) else {
            unreachable!()
        };
        self.log.write(&[], Change::DropRegion(id));
        Ok(())
    }

    #[tactic(auto, unfolding(ks_machine::specs::Lawful::Fits, ks_machine::specs::Changes::apply, ks_machine::specs::Changes::effect))]
    pub(crate) fn drop_service(&mut self, id: Id, most: usize) -> Result<(), Unmade>
        requires { FitsWithRoom most self.old (Change.DropService id) }
        ensures { Makes most self.old (Change.DropService id) result self.new }
    {
        self.log.ready(most, 0)?;
        let Ok(()) = self.catalog.drop_service(&id) else {
            unreachable!()
        };
        self.log.write(&[], Change::DropService(id));
        Ok(())
    }

    #[tactic(auto, unfolding(ks_machine::specs::Lawful::Fits, ks_machine::specs::Changes::apply, ks_machine::specs::Changes::effect))]
    pub(crate) fn drop_endpoint(&mut self, id: Id, most: usize) -> Result<(), Unmade>
        requires { FitsWithRoom most self.old (Change.DropEndpoint id) }
        ensures { Makes most self.old (Change.DropEndpoint id) result self.new }
    {
        self.log.ready(most, 0)?;
        let Ok(()) = self.catalog.drop_endpoint(&id) else {
            unreachable!()
        };
        self.log.write(&[], Change::DropEndpoint(id));
        Ok(())
    }
}

fn put_region(catalog: &mut Catalog, row: RegionRow) -> Result<(), Memory>
    requires { KeepsParent catalog.old (CatalogRow.Region row) }
    ensures ok { OnOk result (catalog.new ≡ with_region row catalog.old) }
    ensures err { OnErr result (catalog.new ≡ catalog.old) }
{
    if catalog.region(&row.id).is_some() {
        return match catalog.set_region(row) {
            Ok(()) => Ok(()),
            Err(_) => Err(Memory),
        };
    }
    match catalog.add_region(row) {
        Ok(()) => Ok(()),
        Err(_) => Err(Memory),
    }
}

fn put_service(catalog: &mut Catalog, row: ServiceRow) -> Result<(), Memory>
    ensures ok { OnOk result (catalog.new ≡ with_service row catalog.old) }
    ensures err { OnErr result (catalog.new ≡ catalog.old) }
{
    if catalog.service(&row.id).is_some() {
        return match catalog.set_service(row) {
            Ok(()) => Ok(()),
            Err(_) => Err(Memory),
        };
    }
    match catalog.add_service(row) {
        Ok(()) => Ok(()),
        Err(_) => Err(Memory),
    }
}

fn put_endpoint(catalog: &mut Catalog, row: EndpointRow) -> Result<(), Memory>
    ensures ok { OnOk result (catalog.new ≡ with_endpoint row catalog.old) }
    ensures err { OnErr result (catalog.new ≡ catalog.old) }
{
    if catalog.endpoint(&row.id).is_some() {
        return match catalog.set_endpoint(row) {
            Ok(()) => Ok(()),
            Err(_) => Err(Memory),
        };
    }
    match catalog.add_endpoint(row) {
        Ok(()) => Ok(()),
        Err(_) => Err(Memory),
    }
}
