use ks_base::{Boxed, Text};
use ks_machine::{AppCredBody, LoginBody, Made, MadeKind, SecretBody, TrustBody};

/// What a body is to be.
#[derive(Clone, Copy)]
pub enum Form {
    Login,
    /// A row of this kind. In a creation, which is true, the name is needed; in a change nothing is.
    Made(MadeKind, bool),
    /// A change of one's own password.
    Password,
    Trust,
    AppCred,
    /// A user's secret of one-time codes.
    Secret,
}

/// What a body asks for.
#[derive(Drop)]
pub enum BodyIn {
    Login(Boxed<LoginBody>),
    Made(Boxed<Made>),
    /// The original password, and the new one.
    Password(Text, Text),
    Trust(Boxed<TrustBody>),
    AppCred(Boxed<AppCredBody>),
    Secret(SecretBody),
}
