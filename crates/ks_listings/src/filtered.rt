//! What a listing of the five kinds asks of a row besides its name, and how the row is told.
ghost use Rattle.std.specs.Prelude.{◌≡◌, ◌&&◌, Bool, IfOk, codes, true};
ghost use Rattle.ks_machine.specs.declared.body_out.Row.{Row};
ghost use Rattle.ks_machine.specs.declared.body_out.Row.TheVariants as variants;
ghost use Rattle.ks_machine.specs.Listings.{has_text, passes_domain, passes_enabled};
ghost use Rattle.ks_rule.specs.Kinds.{Fields};

use ks_base::{DomainRow, FieldList, GroupRow, Memory, Named, ProjectRow, RoleRow, UserRow};
use ks_checks::filters::{has_domain, has_enabled, has_text};
use ks_machine::Row;

/// A row of a kind whose listings may be asked for a name.
pub(crate) trait Listed: Named {
    ghost agrees: { Fields → Self → Bool };

    ghost told: { Self → Row };

    /// Whether the filters agree, all but the one by name.
    fn agrees(&self, fields: &FieldList) -> bool
        ensures { result ≡ agrees fields.now self.now };

    /// The row as it is told.
    fn told(&self) -> Result<Row, Memory>
        ensures { IfOk result (λ row. row ≡ told self.now) };
}

impl Listed for DomainRow {
    ghost agrees = { λ fields row. passes_enabled fields row.enabled };

    ghost told = { λ row. variants.Domain row };

    fn agrees(&self, fields: &FieldList) -> bool {
        has_enabled(fields, self.enabled)
    }

    fn told(&self) -> Result<Row, Memory> {
        Ok(Row::Domain(self.copy()?))
    }
}

impl Listed for ProjectRow {
    ghost agrees = { λ fields row. passes_domain fields row.domain && (has_text fields (codes "parent_id") row.parent && passes_enabled fields row.enabled) };

    ghost told = { λ row. variants.Project row };

    fn agrees(&self, fields: &FieldList) -> bool {
        has_domain(fields, &self.domain)
            && has_text(fields, "parent_id", self.parent.as_slice())
            && has_enabled(fields, self.enabled)
    }

    fn told(&self) -> Result<Row, Memory> {
        Ok(Row::Project(self.copy()?))
    }
}

impl Listed for UserRow {
    ghost agrees = { λ fields row. passes_domain fields row.domain && passes_enabled fields row.enabled };

    ghost told = { λ row. variants.User row };

    fn agrees(&self, fields: &FieldList) -> bool {
        has_domain(fields, &self.domain) && has_enabled(fields, self.enabled)
    }

    fn told(&self) -> Result<Row, Memory> {
        Ok(Row::User(self.copy()?))
    }
}

impl Listed for GroupRow {
    ghost agrees = { λ fields row. passes_domain fields row.domain };

    ghost told = { λ row. variants.Group row };

    fn agrees(&self, fields: &FieldList) -> bool {
        has_domain(fields, &self.domain)
    }

    fn told(&self) -> Result<Row, Memory> {
        Ok(Row::Group(self.copy()?))
    }
}

impl Listed for RoleRow {
    ghost agrees = { λ fields row. true };

    ghost told = { λ row. variants.Role row };

    fn agrees(&self, _fields: &FieldList) -> bool {
        true
    }

    fn told(&self) -> Result<Row, Memory> {
        Ok(Row::Role(self.copy()?))
    }
}
