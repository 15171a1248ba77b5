use ks_base::{
    DomainList, EndpointList, GrantList, GroupList, Id, ImplyList, ListOf, MemberList, PasswordRow,
    ProjectList, RegionList, RoleList, Row, ServiceList, Text, TextList,
};
use ks_machine::Settings;

/// Where the keys come from.
#[derive(Drop)]
pub enum KeysFrom {
    /// The folder of the keys.
    Folder,
    /// The file itself, by 1 to 32 texts; each key's index is the place of its text.
    File(TextList),
}

/// What an opening file has of a password.
#[derive(Drop)]
pub enum WrittenPassword {
    /// The plain password.
    Plain(Text),
    /// What is kept of it.
    Record(PasswordRow),
}

/// A user as an opening file has it.
#[derive(Drop)]
pub struct WrittenUser {
    pub id: Id,
    pub domain: Id,
    pub name: Text,
    pub enabled: bool,
    pub password: Option<WrittenPassword>,
}

impl Row for WrittenUser {
    ghost key = { λ row. row.id };

    fn id(&self) -> &Id {
        &self.id
    }
}

/// What an opening file says, apart from its policy.
#[derive(Drop)]
pub struct Written {
    pub settings: Settings,
    pub keys: KeysFrom,
    pub domains: DomainList,
    pub projects: ProjectList,
    pub users: ListOf<WrittenUser>,
    pub groups: GroupList,
    pub members: MemberList,
    pub roles: RoleList,
    pub implications: ImplyList,
    pub regions: RegionList,
    pub services: ServiceList,
    pub endpoints: EndpointList,
    pub assignments: GrantList,
}
