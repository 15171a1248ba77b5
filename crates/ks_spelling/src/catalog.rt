//! The rows of the service catalog.
ghost use Rattle.ks_spelling.specs.Rows.{region_code, service_code, interface_code, endpoint_code};

use crate::{Cursor, Spelled, Unread, write_place};
use ks_base::{EndpointRow, Id, Interface, Memory, RegionRow, ServiceRow, Text};
use std::alloc::Global;

impl Spelled for RegionRow {
    ghost code = { region_code };

    #[tactic(auto, unfolding(crate::specs::Rows::region_code))]
    fn write_to(&self, into: &mut Vec<u8>) -> Result<(), Memory> {
        self.id.write_to(into)?;
        self.parent.write_to(into)?;
        self.description.write_to(into)
    }

    #[tactic(auto, unfolding(crate::specs::Rows::region_code))]
    fn read_from(alloc: Global, from: &mut Cursor<'_>) -> Result<RegionRow, Unread> {
        let id = Id::read_from(alloc, from)?;
        let parent = Option::<Id>::read_from(alloc, from)?;
        let description = Text::read_from(alloc, from)?;
        Ok(RegionRow {
            id,
            parent,
            description,
        })
    }
}

impl Spelled for ServiceRow {
    ghost code = { service_code };

    #[tactic(auto, unfolding(crate::specs::Rows::service_code))]
    fn write_to(&self, into: &mut Vec<u8>) -> Result<(), Memory> {
        self.id.write_to(into)?;
        self.kind.write_to(into)?;
        self.name.write_to(into)?;
        self.description.write_to(into)?;
        self.enabled.write_to(into)
    }

    #[tactic(auto, unfolding(crate::specs::Rows::service_code))]
    fn read_from(alloc: Global, from: &mut Cursor<'_>) -> Result<ServiceRow, Unread> {
        let id = Id::read_from(alloc, from)?;
        let kind = Text::read_from(alloc, from)?;
        let name = Text::read_from(alloc, from)?;
        let description = Text::read_from(alloc, from)?;
        let enabled = bool::read_from(alloc, from)?;
        Ok(ServiceRow {
            id,
            kind,
            name,
            description,
            enabled,
        })
    }
}

impl Spelled for Interface {
    ghost code = { interface_code };

    #[tactic(auto, unfolding(crate::specs::Rows::interface_code))]
    fn write_to(&self, into: &mut Vec<u8>) -> Result<(), Memory> {
        match self {
            Interface::Public => write_place(0, into),
            Interface::Internal => write_place(1, into),
            Interface::Admin => write_place(2, into),
        }
    }

    #[tactic(auto, unfolding(crate::specs::Rows::interface_code))]
    fn read_from(_alloc: Global, from: &mut Cursor<'_>) -> Result<Interface, Unread> {
        match from.byte() {
            Some(0) => Ok(Interface::Public),
            Some(1) => Ok(Interface::Internal),
            Some(2) => Ok(Interface::Admin),
            _ => Err(Unread::NoSpelling),
        }
    }
}

impl Spelled for EndpointRow {
    ghost code = { endpoint_code };

    #[tactic(auto, unfolding(crate::specs::Rows::endpoint_code))]
    fn write_to(&self, into: &mut Vec<u8>) -> Result<(), Memory> {
        self.id.write_to(into)?;
        self.service.write_to(into)?;
        self.region.write_to(into)?;
        self.interface.write_to(into)?;
        self.url.write_to(into)?;
        self.enabled.write_to(into)
    }

    #[tactic(auto, unfolding(crate::specs::Rows::endpoint_code))]
    fn read_from(alloc: Global, from: &mut Cursor<'_>) -> Result<EndpointRow, Unread> {
        let id = Id::read_from(alloc, from)?;
        let service = Id::read_from(alloc, from)?;
        let region = Option::<Id>::read_from(alloc, from)?;
        let interface = Interface::read_from(alloc, from)?;
        let url = Text::read_from(alloc, from)?;
        let enabled = bool::read_from(alloc, from)?;
        Ok(EndpointRow {
            id,
            service,
            region,
            interface,
            url,
            enabled,
        })
    }
}
