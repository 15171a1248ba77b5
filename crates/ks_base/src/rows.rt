ghost use Rattle.std.specs.Prelude.{◌≡◌, [], IfOk};

use crate::{Homed, Id, Memory, Named, Row, Text, TryCopy};

/// A domain: it holds projects, users and groups.
pub struct DomainRow {
    pub id: Id,
    /// Unique among domains.
    pub name: Text,
    pub description: Text,
    pub enabled: bool,
}

impl Drop for DomainRow {
    fn drop(self) {
        let DomainRow {
            id: _,
            name: _,
            description: _,
            enabled: _,
        } = self;
    }
}

/// A project, in the tree of its domain.
pub struct ProjectRow {
    pub id: Id,
    pub domain: Id,
    /// The project above it; the domain, if it is a top project.
    pub parent: Id,
    /// Unique among the projects of the domain.
    pub name: Text,
    pub description: Text,
    pub enabled: bool,
}

impl Drop for ProjectRow {
    fn drop(self) {
        let ProjectRow {
            id: _,
            domain: _,
            parent: _,
            name: _,
            description: _,
            enabled: _,
        } = self;
    }
}

/// A group of users of any domains.
pub struct GroupRow {
    pub id: Id,
    pub domain: Id,
    /// Unique among the groups of the domain.
    pub name: Text,
    pub description: Text,
}

impl Drop for GroupRow {
    fn drop(self) {
        let GroupRow {
            id: _,
            domain: _,
            name: _,
            description: _,
        } = self;
    }
}

/// A role, which grants name.
pub struct RoleRow {
    pub id: Id,
    /// Unique among roles.
    pub name: Text,
    pub description: Text,
}

impl Drop for RoleRow {
    fn drop(self) {
        let RoleRow {
            id: _,
            name: _,
            description: _,
        } = self;
    }
}

impl DomainRow {
    /// An equal row.
    pub fn copy(&self) -> Result<DomainRow, Memory>
        ensures { IfOk result (λ made. made ≡ self.now) }
    {
        Ok(DomainRow {
            id: self.id,
            name: self.name.copy()?,
            description: self.description.copy()?,
            enabled: self.enabled,
        })
    }
}

impl ProjectRow {
    /// An equal row.
    pub fn copy(&self) -> Result<ProjectRow, Memory>
        ensures { IfOk result (λ made. made ≡ self.now) }
    {
        Ok(ProjectRow {
            id: self.id,
            domain: self.domain,
            parent: self.parent,
            name: self.name.copy()?,
            description: self.description.copy()?,
            enabled: self.enabled,
        })
    }
}

impl GroupRow {
    /// An equal row.
    pub fn copy(&self) -> Result<GroupRow, Memory>
        ensures { IfOk result (λ made. made ≡ self.now) }
    {
        Ok(GroupRow {
            id: self.id,
            domain: self.domain,
            name: self.name.copy()?,
            description: self.description.copy()?,
        })
    }
}

impl RoleRow {
    /// An equal row.
    pub fn copy(&self) -> Result<RoleRow, Memory>
        ensures { IfOk result (λ made. made ≡ self.now) }
    {
        Ok(RoleRow {
            id: self.id,
            name: self.name.copy()?,
            description: self.description.copy()?,
        })
    }
}

impl Row for DomainRow {
    ghost key = { λ row. row.id };

    fn id(&self) -> &Id {
        &self.id
    }
}

impl Named for DomainRow {
    ghost naming = { λ row. row.name };

    ghost within = { λ _. [] };

    fn name(&self) -> &Text {
        &self.name
    }

    fn home(&self) -> &[u8] {
        &[]
    }
}

impl TryCopy for DomainRow {
    fn copy(&self) -> Result<DomainRow, Memory> {
        DomainRow::copy(self)
    }
}

impl Row for ProjectRow {
    ghost key = { λ row. row.id };

    fn id(&self) -> &Id {
        &self.id
    }
}

impl Named for ProjectRow {
    ghost naming = { λ row. row.name };

    ghost within = { λ row. row.domain };

    fn name(&self) -> &Text {
        &self.name
    }

    fn home(&self) -> &[u8] {
        self.domain.as_slice()
    }
}

impl Homed for ProjectRow {
    ghost home = { λ row. row.domain };

    fn domain(&self) -> &Id {
        &self.domain
    }
}

impl TryCopy for ProjectRow {
    fn copy(&self) -> Result<ProjectRow, Memory> {
        ProjectRow::copy(self)
    }
}

impl Row for GroupRow {
    ghost key = { λ row. row.id };

    fn id(&self) -> &Id {
        &self.id
    }
}

impl Named for GroupRow {
    ghost naming = { λ row. row.name };

    ghost within = { λ row. row.domain };

    fn name(&self) -> &Text {
        &self.name
    }

    fn home(&self) -> &[u8] {
        self.domain.as_slice()
    }
}

impl Homed for GroupRow {
    ghost home = { λ row. row.domain };

    fn domain(&self) -> &Id {
        &self.domain
    }
}

impl TryCopy for GroupRow {
    fn copy(&self) -> Result<GroupRow, Memory> {
        GroupRow::copy(self)
    }
}

impl Row for RoleRow {
    ghost key = { λ row. row.id };

    fn id(&self) -> &Id {
        &self.id
    }
}

impl Named for RoleRow {
    ghost naming = { λ row. row.name };

    ghost within = { λ _. [] };

    fn name(&self) -> &Text {
        &self.name
    }

    fn home(&self) -> &[u8] {
        &[]
    }
}

impl TryCopy for RoleRow {
    fn copy(&self) -> Result<RoleRow, Memory> {
        RoleRow::copy(self)
    }
}
