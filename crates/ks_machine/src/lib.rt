//! The identity machine: what every answer is by the state, the moment and the request alone. Its definitions say
//! this of every command; the code so far has the commands, answers, causes and changes, the facts of derived
//! passwords, and the lines of a token's validity that its keys, its payload and the time decide.
#![tactic(auto)]

mod assignments;
mod bodies;
mod body_out;
mod call;
mod cause;
mod change;
mod clock;
mod command;
mod derived;
mod laws;
mod lines;
mod reply;
mod row_kind;
mod settings;
mod why;

pub use assignments::{asks_for_effective, user_lacking};
pub use bodies::{
    AppCredBody, CredNamed, LoginBody, Made, MfaIn, Named, NamedList, ProjectNamed, Proof, ScopeIn,
    SecretBody, TrustBody, UserNamed,
};
pub use body_out::{BodyOut, Homed, Row, RowList, Titled, TitledList, TokenOut, TrustUse};
pub use call::{Call, FolderRead};
pub use cause::{Cause, ScopeWhy};
pub use change::{Change, Entry};
pub use clock::moment;
pub use command::Command;
pub use derived::Derived;
pub use laws::{
    all_facts_suffice, calls_go_on, changes_are_replayed, credentials_are_bounded, cuts_are_fronts,
    few_facts_suffice, fronts_are_ordered, journals_go_on, keys_open_alike,
    restricted_tokens_are_held_back, revoked_tokens_stay_refused, roles_are_effective,
    roles_are_implied, trusts_are_bounded,
};
pub use lines::{ReadToken, first_answer, read_payload, token_lines};
pub use reply::Reply;
pub use row_kind::{MadeKind, RowKind};
pub use settings::{OpenFault, Settings};
pub use why::Why;
