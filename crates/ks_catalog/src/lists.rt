ghost use Rattle.std.specs.Prelude.{◌≡◌, IfOk};
ghost use Rattle.ks_base.specs.CatalogLists.{ids_listed};

use crate::Catalog;
use crate::tests_of_rows::Listed;
use ks_base::{CatalogKind, Filter, IdList, Memory};

impl Catalog {
    /// The ids of the rows of a kind that the filter lists, in their order: those that agree with each of its values.
    /// Regions are asked for `parent_region_id`, services for `type` and `name`, and endpoints for `service_id`,
    /// `region_id` and `interface`; other names are passed over.
    pub fn list(&self, of: CatalogKind, filter: &Filter) -> Result<IdList, Memory>
        ensures { IfOk result (λ ids. ids ≡ ids_listed self.now of filter.now.fields) }
    {
        match of {
            CatalogKind::Region => self.regions.ids_where(&Listed { filter }),
            CatalogKind::Service => self.services.ids_where(&Listed { filter }),
            CatalogKind::Endpoint => self.endpoints.ids_where(&Listed { filter }),
        }
    }
}
