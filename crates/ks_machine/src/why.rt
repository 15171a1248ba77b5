ghost use Rattle.std.specs.Prelude.{◌≡◌};
ghost use Rattle.ks_machine.specs.Names.{name_of};

/// Why a token is not valid: the first line of its validity that does not hold, in this order.
#[derive(Clone, Copy)]
pub enum Why {
    /// The text is no envelope.
    Text,
    /// No key that is held opens it.
    Key,
    /// What it holds is no payload.
    Payload,
    /// It was issued after the moment.
    Future,
    /// The moment has come to its expiry.
    Expired,
    /// Its expiry is later than its issue and the life of a token.
    Span,
    /// An event revoked it.
    Revoked,
    /// The user or the user's domain does not stand or is disabled.
    User,
    /// The scope does not stand or is disabled.
    Scope,
    /// The trust does not stand, has expired, or is not this token's.
    Trust,
    /// The application credential does not stand, has expired, or is not this token's.
    Credential,
    /// It has no roles, or the trustor, or the user of the application credential, has lost one of them.
    Roles,
}

impl Why {
    /// The line's name, in lower case.
    pub fn name(&self) -> &'static str
        ensures { result.now ≡ name_of self.now }
    {
        match self {
            Why::Text => "text",
            Why::Key => "key",
            Why::Payload => "payload",
            Why::Future => "future",
            Why::Expired => "expired",
            Why::Span => "span",
            Why::Revoked => "revoked",
            Why::User => "user",
            Why::Scope => "scope",
            Why::Trust => "trust",
            Why::Credential => "credential",
            Why::Roles => "roles",
        }
    }
}
