//! What bodies of requests ask for (Identity API v3).
ghost use Rattle.std.specs.Prelude.{◌≡◌, IfOk};

use ks_base::{Bytes, Id, ListOf, Memory, Text, TryCopy};

/// A row that is named by its id, or by its name.
pub enum Named {
    Id(Id),
    Name(Text),
}

impl Drop for Named {
    fn drop(self) {
        match self {
            Named::Id(_) | Named::Name(_) => {}
        }
    }
}

/// Roles as a body names them.
pub type NamedList = ListOf<Named>;

/// A user that is named by its id, or by its name and its domain.
pub enum UserNamed {
    Id(Id),
    Name(Text, Named),
}

impl Drop for UserNamed {
    fn drop(self) {
        match self {
            UserNamed::Id(_) | UserNamed::Name(_, _) => {}
        }
    }
}

/// A project that is named by its id, or by its name and its domain.
pub enum ProjectNamed {
    Id(Id),
    Name(Text, Named),
}

impl Drop for ProjectNamed {
    fn drop(self) {
        match self {
            ProjectNamed::Id(_) | ProjectNamed::Name(_, _) => {}
        }
    }
}

/// An application credential that is named by its id, or by its name and its user.
pub enum CredNamed {
    Id(Id),
    Name(Text, UserNamed),
}

impl Drop for CredNamed {
    fn drop(self) {
        match self {
            CredNamed::Id(_) | CredNamed::Name(_, _) => {}
        }
    }
}

/// What a login shows of who it is.
pub enum Proof {
    /// The user, and the password.
    Password(UserNamed, Text),
    /// The text of a token.
    Token(Text),
    /// The application credential, and its secret.
    AppCred(CredNamed, Text),
    /// The user, and a code of six digits (RFC 6238).
    Totp(UserNamed, u32),
    /// The user of the password, the password, the user of the code, and the code.
    Both(UserNamed, Text, UserNamed, u32),
}

impl Drop for Proof {
    fn drop(self) {
        match self {
            Proof::Password(_, _)
            | Proof::Token(_)
            | Proof::AppCred(_, _)
            | Proof::Totp(_, _)
            | Proof::Both(_, _, _, _) => {}
        }
    }
}

/// Where a login wants to have its roles.
pub enum ScopeIn {
    /// The body does not say.
    Nothing,
    /// Nowhere.
    Unscoped,
    Domain(Named),
    Project(ProjectNamed),
    /// The whole system.
    System,
    /// Where and as the trust says.
    Trust(Id),
}

impl Drop for ScopeIn {
    fn drop(self) {
        match self {
            ScopeIn::Nothing
            | ScopeIn::Unscoped
            | ScopeIn::Domain(_)
            | ScopeIn::Project(_)
            | ScopeIn::System
            | ScopeIn::Trust(_) => {}
        }
    }
}

/// The body of a login.
pub struct LoginBody {
    pub proof: Proof,
    pub scope: ScopeIn,
}

impl Drop for LoginBody {
    fn drop(self) {
        let LoginBody { proof: _, scope: _ } = self;
    }
}

/// The methods that a body says that its user has to log in by.
#[derive(Drop)]
pub struct MfaIn {
    /// Rules that are not enabled ask for nothing.
    pub enabled: bool,
    /// Each byte is one rule, the set of the methods that it asks for: 1 for a password, 4 for a code.
    pub rules: Bytes,
}

/// The body of a creation or a change of one kind of row. A field that is absent is none. The id is
/// there in a change alone.
pub enum Made {
    Domain {
        id: Option<Id>,
        name: Option<Text>,
        description: Option<Text>,
        enabled: Option<bool>,
    },
    Project {
        id: Option<Id>,
        name: Option<Text>,
        domain: Option<Id>,
        parent: Option<Id>,
        description: Option<Text>,
        enabled: Option<bool>,
    },
    User {
        id: Option<Id>,
        name: Option<Text>,
        domain: Option<Id>,
        password: Option<Text>,
        enabled: Option<bool>,
        factors: Option<MfaIn>,
    },
    Group {
        id: Option<Id>,
        name: Option<Text>,
        domain: Option<Id>,
        description: Option<Text>,
    },
    Role {
        id: Option<Id>,
        name: Option<Text>,
        description: Option<Text>,
    },
}

impl Drop for Made {
    fn drop(self) {
        match self {
            Made::Domain {
                id: _,
                name: _,
                description: _,
                enabled: _,
            }
            | Made::Project {
                id: _,
                name: _,
                domain: _,
                parent: _,
                description: _,
                enabled: _,
            }
            | Made::User {
                id: _,
                name: _,
                domain: _,
                password: _,
                enabled: _,
                factors: _,
            }
            | Made::Group {
                id: _,
                name: _,
                domain: _,
                description: _,
            }
            | Made::Role {
                id: _,
                name: _,
                description: _,
            } => {}
        }
    }
}

/// The body that makes a trust (OS-TRUST).
pub struct TrustBody {
    pub trustor: Id,
    pub trustee: Id,
    pub project: Id,
    pub impersonation: bool,
    /// 0 to 64 roles.
    pub roles: NamedList,
    /// The moment from which it serves no more, in whole seconds since 1970-01-01T00:00:00Z.
    pub expires: Option<u64>,
    /// How often it may serve, from 1 to 2^53.
    pub remaining: Option<u64>,
    /// Whether trusts may follow below it.
    pub redelegate: bool,
    /// How many trusts may follow below it.
    pub count: Option<u32>,
    /// The trust that it passes on.
    pub parent: Option<Id>,
}

impl Drop for TrustBody {
    fn drop(self) {
        let TrustBody {
            trustor: _,
            trustee: _,
            project: _,
            impersonation: _,
            roles: _,
            expires: _,
            remaining: _,
            redelegate: _,
            count: _,
            parent: _,
        } = self;
    }
}

/// The body that makes an application credential (Identity API v3, application credentials).
#[derive(Drop)]
pub struct AppCredBody {
    pub name: Text,
    /// 1 to 255 bytes; one is drawn where none is given.
    pub secret: Option<Text>,
    pub description: Text,
    /// The moment from which it serves no more, in whole seconds since 1970-01-01T00:00:00Z.
    pub expires: Option<u64>,
    /// 0 to 64 roles; those of the caller's token where none are given.
    pub roles: Option<NamedList>,
    /// Whether its tokens may make trusts and credentials.
    pub unrestricted: bool,
}

/// The body that gives a user a secret of one-time codes (Identity API v3, credentials of type `totp`).
#[derive(Drop)]
pub struct SecretBody {
    pub user: Id,
    /// 10 to 64 bytes.
    pub secret: Bytes,
}

impl Named {
    /// An equal name.
    pub fn copy(&self) -> Result<Named, Memory>
        ensures { IfOk result (λ made. made ≡ self.now) }
    {
        match self {
            Named::Id(id) => Ok(Named::Id(*id)),
            Named::Name(name) => Ok(Named::Name(name.copy()?)),
        }
    }
}

impl TryCopy for Named {
    fn copy(&self) -> Result<Named, Memory> {
        Named::copy(self)
    }
}
