//! What rules see of a row of a kind.
ghost use Rattle.std.specs.Prelude.{◌≡◌, ◌++◌, OnOk};
ghost use Rattle.ks_machine.specs.Targets.{domain_fields, endpoint_fields, group_fields, project_fields, region_fields, role_fields, service_fields, user_fields};
ghost use Rattle.ks_targets.specs.Views.{seen_of};

use crate::fields::Fields;
use ks_base::{Id, Memory, Text};

/// What rules see of a row of a kind, or of a body that makes one.
#[derive(Clone, Copy)]
pub struct Seen<'a> {
    pub id: Option<&'a Id>,
    pub name: Option<&'a Text>,
    pub domain: Option<&'a Id>,
    pub enabled: Option<bool>,
}

impl Fields {
    pub fn put_domain(&mut self, seen: &Seen) -> Result<(), Memory>
        ensures { OnOk result (self.new ≡ self.old ++ domain_fields (seen_of seen.now)) }
    {
        self.put_given_id("target.domain.id", seen.id)?;
        self.put_given("target.domain.name", seen.name)?;
        self.put_given_truth("target.domain.enabled", seen.enabled)
    }

    pub fn put_project(&mut self, seen: &Seen) -> Result<(), Memory>
        ensures { OnOk result (self.new ≡ self.old ++ project_fields (seen_of seen.now)) }
    {
        self.put_given_id("target.project.id", seen.id)?;
        self.put_given("target.project.name", seen.name)?;
        self.put_given_id("target.project.domain_id", seen.domain)?;
        self.put_given_truth("target.project.enabled", seen.enabled)
    }

    pub fn put_user(&mut self, seen: &Seen) -> Result<(), Memory>
        ensures { OnOk result (self.new ≡ self.old ++ user_fields (seen_of seen.now)) }
    {
        self.put_given_id("target.user.id", seen.id)?;
        self.put_given("target.user.name", seen.name)?;
        self.put_given_id("target.user.domain_id", seen.domain)?;
        self.put_given_truth("target.user.enabled", seen.enabled)
    }

    pub fn put_group(&mut self, seen: &Seen) -> Result<(), Memory>
        ensures { OnOk result (self.new ≡ self.old ++ group_fields (seen_of seen.now)) }
    {
        self.put_given_id("target.group.id", seen.id)?;
        self.put_given("target.group.name", seen.name)?;
        self.put_given_id("target.group.domain_id", seen.domain)
    }

    pub fn put_role(&mut self, seen: &Seen) -> Result<(), Memory>
        ensures { OnOk result (self.new ≡ self.old ++ role_fields (seen_of seen.now)) }
    {
        self.put_given_id("target.role.id", seen.id)?;
        self.put_given("target.role.name", seen.name)
    }

    pub fn put_region(&mut self, seen: &Seen) -> Result<(), Memory>
        ensures { OnOk result (self.new ≡ self.old ++ region_fields (seen_of seen.now)) }
    {
        self.put_given_id("target.region.id", seen.id)
    }

    pub fn put_service(&mut self, seen: &Seen) -> Result<(), Memory>
        ensures { OnOk result (self.new ≡ self.old ++ service_fields (seen_of seen.now)) }
    {
        self.put_given_id("target.service.id", seen.id)?;
        self.put_given("target.service.name", seen.name)?;
        self.put_given_truth("target.service.enabled", seen.enabled)
    }

    pub fn put_endpoint(&mut self, seen: &Seen) -> Result<(), Memory>
        ensures { OnOk result (self.new ≡ self.old ++ endpoint_fields (seen_of seen.now)) }
    {
        self.put_given_id("target.endpoint.id", seen.id)?;
        self.put_given_truth("target.endpoint.enabled", seen.enabled)
    }
}
