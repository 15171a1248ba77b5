ghost use Rattle.std.specs.Prelude.{◌≡◌, [], option_copied, IfOk};
ghost use Rattle.ks_catalog.specs.ProjectCatalog.{catalog_of};
ghost use Rattle.ks_catalog.specs.Offers.{filled_services, offers_of};

use crate::Catalog;
use crate::offers::{ServiceOut, ServiceOutList, offers_of};
use crate::shared::Shared;
use ks_base::{Id, Memory};
use std::alloc::Global;
use std::marker::Model;

/// The catalog of a project, or of a scope without one, as it is told with a token: the services that all projects are
/// offered, which many hold, and the project whose id fills their URLs.
#[derive(Drop)]
pub struct ProjectCatalog {
    offers: Shared<ServiceOutList>,
    project: Option<Id>,
}

impl Model for ProjectCatalog {
    ghost use Rattle.std.specs.Prelude.{List};
    ghost use Rattle.ks_catalog.specs.declared.offers.ServiceOut.{ServiceOut};
    ghost use Rattle.ks_catalog.specs.Offers.{filled_services};

    ghost Value = { List ServiceOut };

    ghost view = { λ catalog. filled_services catalog.project catalog.offers };
}

impl ProjectCatalog {
    /// The catalog without services.
    pub fn empty(alloc: Global) -> Result<ProjectCatalog, Memory>
        ensures { IfOk result (λ made. made ≡ []) }
    {
        Ok(ProjectCatalog {
            offers: Shared::new(alloc, ServiceOutList::new(alloc))?,
            project: None,
        })
    }

    /// The services, with their URLs as they stand, and the project whose id fills these (`EndpointOut::fill`).
    pub fn parts(&self) -> (&[ServiceOut], &Option<Id>)
        ensures { self.now ≡ filled_services result.1.now result.0.now }
    {
        (self.offers.get().as_slice(), &self.project)
    }
}

impl Catalog {
    /// Makes what all projects are offered, for all calls until a service or an endpoint changes. Where there is no
    /// memory for it, or it was not called since, each call makes it for itself.
    pub fn prepare(&mut self)
        ensures { self.new ≡ self.old }
    {
        if self.offers.is_some() {
            return;
        }
        if let Ok(offers) = self.made_offers() {
            self.offers = Some(offers);
        }
    }

    /// The catalog of a project: the enabled services, in the order of their ids, each with its enabled endpoints, in
    /// the order of theirs, whose URL fills. A URL fills by the project's id in the place of each `$(project_id)s`,
    /// `%(project_id)s`, `$(tenant_id)s` and `%(tenant_id)s`; without a project one with such a place does not.
    #[tactic(auto, unfolding(crate::specs::ProjectCatalog::catalog_of))]
    pub fn listed(&self, project: Option<&Id>) -> Result<ProjectCatalog, Memory>
        ensures { IfOk result (λ services. services ≡ catalog_of self.now (option_copied project.entry)) }
    {
        Ok(ProjectCatalog {
            offers: self.offers()?,
            project: project.copied(),
        })
    }

    /// What all projects are offered.
    fn offers(&self) -> Result<Shared<ServiceOutList>, Memory>
        ensures { IfOk result (λ offers. offers ≡ offers_of self.now.endpoints self.now.services) }
    {
        match &self.offers {
            Some(offers) => offers.share(),
            None => self.made_offers(),
        }
    }

    /// What all projects are offered, made of the rows.
    fn made_offers(&self) -> Result<Shared<ServiceOutList>, Memory>
        ensures { IfOk result (λ offers. offers ≡ offers_of self.now.endpoints self.now.services) }
    {
        let offers = offers_of(self.alloc, self.services.rows(), self.endpoints.rows())?;
        Shared::new(self.alloc, offers)
    }
}
