//! Copies of rows of any kind.
ghost use Rattle.std.specs.Prelude.{◌≡◌, IfOk};
ghost use Rattle.ks_base.specs.Catalog.{row_of};

use crate::Catalog;
use ks_base::{CatalogKind, CatalogRow, Id, Memory};

impl Catalog {
    /// A copy of the row of this kind and id.
    pub fn row(&self, of: CatalogKind, id: &Id) -> Result<Option<CatalogRow>, Memory>
        ensures { IfOk result (λ found. found ≡ row_of of id.now self.now) }
    {
        match of {
            CatalogKind::Region => self.region_row(id),
            CatalogKind::Service => self.service_row(id),
            CatalogKind::Endpoint => self.endpoint_row(id),
        }
    }

    fn region_row(&self, id: &Id) -> Result<Option<CatalogRow>, Memory>
        ensures { IfOk result (λ found. found ≡ row_of CatalogKind.Region id.now self.now) }
    {
        match self.region(id) {
            Some(row) => Ok(Some(CatalogRow::Region(row.copy()?))),
            None => Ok(None),
        }
    }

    fn service_row(&self, id: &Id) -> Result<Option<CatalogRow>, Memory>
        ensures { IfOk result (λ found. found ≡ row_of CatalogKind.Service id.now self.now) }
    {
        match self.service(id) {
            Some(row) => Ok(Some(CatalogRow::Service(row.copy()?))),
            None => Ok(None),
        }
    }

    fn endpoint_row(&self, id: &Id) -> Result<Option<CatalogRow>, Memory>
        ensures { IfOk result (λ found. found ≡ row_of CatalogKind.Endpoint id.now self.now) }
    {
        match self.endpoint(id) {
            Some(row) => Ok(Some(CatalogRow::Endpoint(row.copy()?))),
            None => Ok(None),
        }
    }
}
