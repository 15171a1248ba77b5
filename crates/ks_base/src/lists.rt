use crate::{
    AppCredRow, DomainRow, EndpointRow, EventRow, GrantRow, GroupRow, Id, ImplyRow, Key, ListOf,
    MemberRow, Memory, Method, ProjectRow, RegionRow, RoleRow, ServiceRow, Text, TrustRow, TryCopy,
    UserRow,
};

/// Ids, each in its place.
pub type IdList = ListOf<Id>;
/// Texts, each in its place.
pub type TextList = ListOf<Text>;
/// Methods, as `Allow` lists them.
pub type MethodList = ListOf<Method>;
/// Keys with the indices of their files.
pub type KeyList = ListOf<(u32, Key)>;
/// Names with their values, as those of a query.
pub type FieldList = ListOf<(Text, Text)>;
/// Indices of files.
pub type IndexList = ListOf<u32>;

/// Domains, each in its place.
pub type DomainList = ListOf<DomainRow>;

/// Projects, each in its place.
pub type ProjectList = ListOf<ProjectRow>;

/// Users, each in its place.
pub type UserList = ListOf<UserRow>;

/// Groups, each in its place.
pub type GroupList = ListOf<GroupRow>;

/// Memberships, each in its place.
pub type MemberList = ListOf<MemberRow>;

/// Roles, each in its place.
pub type RoleList = ListOf<RoleRow>;

/// Implications, each in its place.
pub type ImplyList = ListOf<ImplyRow>;

/// Grants, each in its place.
pub type GrantList = ListOf<GrantRow>;

/// Trusts, each in its place.
pub type TrustList = ListOf<TrustRow>;

/// Revocations, each in its place.
pub type EventList = ListOf<EventRow>;

/// Regions, each in its place.
pub type RegionList = ListOf<RegionRow>;

/// Services, each in its place.
pub type ServiceList = ListOf<ServiceRow>;

/// Endpoints, each in its place.
pub type EndpointList = ListOf<EndpointRow>;

/// Application credentials, each in its place.
pub type AppCredList = ListOf<AppCredRow>;

impl TryCopy for u32 {
    fn copy(&self) -> Result<u32, Memory> {
        Ok(*self)
    }
}

impl TryCopy for (u32, Key) {
    fn copy(&self) -> Result<(u32, Key), Memory> {
        Ok(*self)
    }
}

impl TryCopy for (Text, Text) {
    fn copy(&self) -> Result<(Text, Text), Memory> {
        let (name, value) = self;
        Ok((name.copy()?, value.copy()?))
    }
}
