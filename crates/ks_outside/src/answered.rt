use ks_base::{Id, Method, Text};

/// What a desk is told of a request that was answered. No token, password, key or body is among it.
pub struct Answered {
    /// The number of its link on the desk, from 0.
    pub connection: u64,
    /// Its own number on the link, from 0.
    pub request: u64,
    pub method: Method,
    /// The target before its first question mark, as it came, where there was memory to note it.
    pub path: Option<Text>,
    /// The status of its response, if it got one, whether the whole of that was taken or not.
    pub status: Option<u16>,
    pub who: Who,
    /// Why it was refused, by name, if it was.
    pub cause: Option<Text>,
}

/// Of whom a request spoke. Nothing says that the user stands, or that the request came from it.
pub enum Who {
    /// Of nobody, as far as was found out.
    Nobody,
    /// The user that the caller's token is for, and where it has its roles.
    Caller(Id, Scope),
    /// The user with this id, by a login.
    Login(Id),
    /// The user of this name in the domain of this id or name, by a login.
    LoginByName(Text, Text),
}

/// Where a token has its roles.
#[derive(Clone, Copy)]
pub enum Scope {
    Unscoped,
    Domain(Id),
    Project(Id),
    /// Where and as a trust says.
    Trust(Id),
    System,
}

impl Drop for Answered {
    fn drop(self) {
        let Answered {
            connection: _,
            request: _,
            method: _,
            path: _,
            status: _,
            who: _,
            cause: _,
        } = self;
    }
}

impl Drop for Who {
    fn drop(self) {
        match self {
            Who::Nobody | Who::Caller(_, _) | Who::Login(_) | Who::LoginByName(_, _) => {}
        }
    }
}
