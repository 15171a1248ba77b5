use ks_base::{
    AppCredRow, DomainRow, EndpointRow, GrantRow, GroupRow, Id, ImplyRow, Key, KeyList, MemberRow,
    MfaRow, ProjectRow, RegionRow, RoleRow, SecretRow, ServiceRow, TrustRow, UserRow,
};

/// What a command that is granted does to the state.
#[derive(Drop)]
pub enum Change {
    /// The row is new, or stands in the place of the one with its id.
    PutDomain(DomainRow),
    PutProject(ProjectRow),
    PutUser(UserRow),
    PutGroup(GroupRow),
    PutRole(RoleRow),
    PutTrust(TrustRow),
    /// The row goes, with all that hangs on it.
    DropDomain(Id),
    DropProject(Id),
    DropUser(Id),
    DropGroup(Id),
    DropRole(Id),
    DropTrust(Id),
    Join(MemberRow),
    Leave(MemberRow),
    Imply(ImplyRow),
    Unimply(ImplyRow),
    Grant(GrantRow),
    Ungrant(GrantRow),
    /// A use of the trust is taken.
    UseTrust(Id),
    /// The token with this audit id ends.
    RevokeToken([u8; 16]),
    /// The keys move on, and this one is staged.
    Rotate(Key),
    /// These keys are held, each by its index.
    Load(KeyList),
    PutRegion(RegionRow),
    PutService(ServiceRow),
    PutEndpoint(EndpointRow),
    DropRegion(Id),
    /// The service goes, with its endpoints.
    DropService(Id),
    DropEndpoint(Id),
    PutAppCred(AppCredRow),
    DropAppCred(Id),
    PutSecret(SecretRow),
    DropSecret(Id),
    /// The user, and the methods that it has to log in by.
    PutUserWith(UserRow, MfaRow),
}

/// A change in the journal.
pub struct Entry {
    /// Its place, counted from 0.
    pub number: u64,
    /// The moment at which it was made, in whole seconds since 1970-01-01T00:00:00Z.
    pub moment: u64,
    pub change: Change,
}

impl Drop for Entry {
    fn drop(self) {
        let Entry {
            number: _,
            moment: _,
            change: _,
        } = self;
    }
}
