ghost use Rattle.std.specs.Prelude.{◌≡◌, IfOk, unwrap_or};
ghost use Rattle.ks_written.specs.Written.{domain_in, endpoint_in, group_in, implication_in, key_in, member_in, project_in, region_in, role_in, service_in, user_in};

use crate::entries::Entry;
use crate::password::written_password;
use crate::written::WrittenUser;
use ks_base::{
    DomainRow, EndpointRow, GroupRow, ImplyRow, MemberRow, Memory, ProjectRow, RegionRow, RoleRow,
    ServiceRow, ShapeRefusal, Text,
};
use ks_shape::{
    AnyText, DESCRIPTION, ENDPOINT_URL, IdText, InterfaceWord, NAME, Node, SERVICE_TEXT, Truth,
};
use std::alloc::Global;

/// The text, or this one where there is none.
pub(crate) fn text_or(alloc: Global, text: Option<Text>, other: &str) -> Result<Text, Memory>
    ensures { IfOk result (λ made. made ≡ unwrap_or text other.now) }
{
    match text {
        Some(text) => Ok(text),
        None => Text::of(alloc, other),
    }
}

/// A key's text, in the list of keys.
impl Entry for Text {
    ghost reads = { key_in };

    #[tactic(auto, unfolding(crate::specs::Written::key_in))]
    fn read(_alloc: Global, entry: &Node) -> Result<Text, ShapeRefusal> {
        entry.needed(&[], &AnyText)
    }
}

impl Entry for DomainRow {
    ghost reads = { domain_in };

    #[tactic(auto, unfolding(crate::specs::Written::domain_in))]
    fn read(alloc: Global, entry: &Node) -> Result<DomainRow, ShapeRefusal> {
        let id = entry.needed(&["id"], &IdText)?;
        let name = entry.needed(&["name"], &NAME)?;
        let description = entry.optional(&["description"], &DESCRIPTION)?;
        let enabled = entry.optional(&["enabled"], &Truth)?;
        Ok(DomainRow {
            id,
            name,
            description: text_or(alloc, description, "")?,
            enabled: enabled.unwrap_or(true),
        })
    }
}

impl Entry for ProjectRow {
    ghost reads = { project_in };

    #[tactic(auto, unfolding(crate::specs::Written::project_in))]
    fn read(alloc: Global, entry: &Node) -> Result<ProjectRow, ShapeRefusal> {
        let id = entry.needed(&["id"], &IdText)?;
        let domain = entry.needed(&["domain_id"], &IdText)?;
        let parent = entry.optional(&["parent_id"], &IdText)?;
        let name = entry.needed(&["name"], &NAME)?;
        let description = entry.optional(&["description"], &DESCRIPTION)?;
        let enabled = entry.optional(&["enabled"], &Truth)?;
        Ok(ProjectRow {
            id,
            domain,
            parent: parent.unwrap_or(domain),
            name,
            description: text_or(alloc, description, "")?,
            enabled: enabled.unwrap_or(true),
        })
    }
}

impl Entry for WrittenUser {
    ghost reads = { user_in };

    #[tactic(auto, unfolding(crate::specs::Written::user_in))]
    fn read(_alloc: Global, entry: &Node) -> Result<WrittenUser, ShapeRefusal> {
        let id = entry.needed(&["id"], &IdText)?;
        let domain = entry.needed(&["domain_id"], &IdText)?;
        let name = entry.needed(&["name"], &NAME)?;
        let enabled = entry.optional(&["enabled"], &Truth)?;
        let password = written_password(entry)?;
        Ok(WrittenUser {
            id,
            domain,
            name,
            enabled: enabled.unwrap_or(true),
            password,
        })
    }
}

impl Entry for GroupRow {
    ghost reads = { group_in };

    #[tactic(auto, unfolding(crate::specs::Written::group_in))]
    fn read(alloc: Global, entry: &Node) -> Result<GroupRow, ShapeRefusal> {
        let id = entry.needed(&["id"], &IdText)?;
        let domain = entry.needed(&["domain_id"], &IdText)?;
        let name = entry.needed(&["name"], &NAME)?;
        let description = entry.optional(&["description"], &DESCRIPTION)?;
        Ok(GroupRow {
            id,
            domain,
            name,
            description: text_or(alloc, description, "")?,
        })
    }
}

impl Entry for MemberRow {
    ghost reads = { member_in };

    #[tactic(auto, unfolding(crate::specs::Written::member_in))]
    fn read(_alloc: Global, entry: &Node) -> Result<MemberRow, ShapeRefusal> {
        let group = entry.needed(&["group"], &IdText)?;
        let user = entry.needed(&["user"], &IdText)?;
        Ok(MemberRow { group, user })
    }
}

impl Entry for RoleRow {
    ghost reads = { role_in };

    #[tactic(auto, unfolding(crate::specs::Written::role_in))]
    fn read(alloc: Global, entry: &Node) -> Result<RoleRow, ShapeRefusal> {
        let id = entry.needed(&["id"], &IdText)?;
        let name = entry.needed(&["name"], &NAME)?;
        let description = entry.optional(&["description"], &DESCRIPTION)?;
        Ok(RoleRow {
            id,
            name,
            description: text_or(alloc, description, "")?,
        })
    }
}

impl Entry for ImplyRow {
    ghost reads = { implication_in };

    #[tactic(auto, unfolding(crate::specs::Written::implication_in))]
    fn read(_alloc: Global, entry: &Node) -> Result<ImplyRow, ShapeRefusal> {
        let prior = entry.needed(&["prior"], &IdText)?;
        let implied = entry.needed(&["implied"], &IdText)?;
        Ok(ImplyRow { prior, implied })
    }
}

impl Entry for RegionRow {
    ghost reads = { region_in };

    #[tactic(auto, unfolding(crate::specs::Written::region_in))]
    fn read(alloc: Global, entry: &Node) -> Result<RegionRow, ShapeRefusal> {
        let id = entry.needed(&["id"], &IdText)?;
        let parent = entry.optional(&["parent_region_id"], &IdText)?;
        let description = entry.optional(&["description"], &DESCRIPTION)?;
        Ok(RegionRow {
            id,
            parent,
            description: text_or(alloc, description, "")?,
        })
    }
}

impl Entry for ServiceRow {
    ghost reads = { service_in };

    #[tactic(auto, unfolding(crate::specs::Written::service_in))]
    fn read(alloc: Global, entry: &Node) -> Result<ServiceRow, ShapeRefusal> {
        let id = entry.needed(&["id"], &IdText)?;
        let kind = entry.needed(&["type"], &SERVICE_TEXT)?;
        let name = entry.optional(&["name"], &SERVICE_TEXT)?;
        let description = entry.optional(&["description"], &DESCRIPTION)?;
        let enabled = entry.optional(&["enabled"], &Truth)?;
        Ok(ServiceRow {
            id,
            kind,
            name: text_or(alloc, name, "")?,
            description: text_or(alloc, description, "")?,
            enabled: enabled.unwrap_or(true),
        })
    }
}

impl Entry for EndpointRow {
    ghost reads = { endpoint_in };

    #[tactic(auto, unfolding(crate::specs::Written::endpoint_in))]
    fn read(_alloc: Global, entry: &Node) -> Result<EndpointRow, ShapeRefusal> {
        let id = entry.needed(&["id"], &IdText)?;
        let service = entry.needed(&["service_id"], &IdText)?;
        let interface = entry.needed(&["interface"], &InterfaceWord)?;
        let url = entry.needed(&["url"], &ENDPOINT_URL)?;
        let region = entry.optional(&["region_id"], &IdText)?;
        let enabled = entry.optional(&["enabled"], &Truth)?;
        Ok(EndpointRow {
            id,
            service,
            region,
            interface,
            url,
            enabled: enabled.unwrap_or(true),
        })
    }
}
