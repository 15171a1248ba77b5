use crate::rules::Rules;
use ks_base::{
    DomainList, EndpointList, GrantList, GroupList, ImplyList, KeyList, MemberList, ProjectList,
    RegionList, RoleList, ServiceList, UserList,
};
use ks_machine::Settings;

/// What a server begins with: its settings and policy, its keys with their indices, and the rows of its tables, each list
/// in the order of the opening file. No password is in it, but what is kept of each.
#[derive(Drop)]
pub struct Opening {
    pub settings: Settings,
    pub rules: Rules,
    pub ring: KeyList,
    pub domains: DomainList,
    pub projects: ProjectList,
    pub users: UserList,
    pub groups: GroupList,
    pub members: MemberList,
    pub roles: RoleList,
    pub implications: ImplyList,
    pub regions: RegionList,
    pub services: ServiceList,
    pub endpoints: EndpointList,
    pub assignments: GrantList,
}
