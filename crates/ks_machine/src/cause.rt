use crate::Why;
use ks_base::{Id, KeysFault, Kind, MethodList, ShapeFault, Text, TreeFault, TrustFault};

/// Why a login gets no scope.
#[derive(Clone, Copy)]
pub enum ScopeWhy {
    /// The scope does not stand.
    Absent,
    /// It is disabled, or in a disabled domain.
    Off,
    /// The user has no role there.
    NoRoles,
}

/// Why a command is refused.
pub enum Cause {
    /// The body or the query is not what the route asks for.
    Shape(ShapeFault),
    /// The command needs a caller's token, and there is none.
    NoToken,
    /// The caller's token is not valid.
    CallerToken(Why),
    /// The login does not show who it is.
    Credentials,
    ScopeRefused(ScopeWhy),
    /// The rule of this action does not allow it.
    Rule(Text),
    Trust(TrustFault),
    Tree(TreeFault),
    /// The command is never allowed on this.
    Prohibited,
    /// This field of a row may not be changed.
    Immutable(Text),
    /// A token of a trust gives no token.
    TrustToken,
    /// The keys come from elsewhere.
    KeyMode,
    /// No row of this kind has this id.
    Absent(Kind, Id),
    /// The subject token is not valid.
    SubjectToken(Why),
    /// No route has the path.
    NoRoute,
    /// The path's routes have other methods than the request's: these, in the order in which `Allow`
    /// lists them.
    NoMethod(MethodList),
    /// The row with this id has the name.
    NameTaken(Id),
    /// The keys of the folder are refused.
    Keys(KeysFault),
    /// The table of this kind is full.
    Full(Kind),
    /// A row has the id that was drawn.
    IdTaken(Id),
    /// No random bytes came.
    Random,
    /// The folder of keys failed.
    KeyDir,
    /// There was no memory.
    Memory,
}

impl Drop for Cause {
    fn drop(self) {
        match self {
            Cause::Shape(_)
            | Cause::NoToken
            | Cause::CallerToken(_)
            | Cause::Credentials
            | Cause::ScopeRefused(_)
            | Cause::Rule(_)
            | Cause::Trust(_)
            | Cause::Tree(_)
            | Cause::Prohibited
            | Cause::Immutable(_)
            | Cause::TrustToken
            | Cause::KeyMode
            | Cause::Absent(_, _)
            | Cause::SubjectToken(_)
            | Cause::NoRoute
            | Cause::NoMethod(_)
            | Cause::NameTaken(_)
            | Cause::Keys(_)
            | Cause::Full(_)
            | Cause::IdTaken(_)
            | Cause::Random
            | Cause::KeyDir
            | Cause::Memory => {}
        }
    }
}
