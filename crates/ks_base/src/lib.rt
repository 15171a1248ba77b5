//! The types that every layer speaks of: bytes, texts, keys, ids, rows, faults, and lists and tables whose
//! growth may find no memory.
#![tactic(auto)]

mod app_creds;
mod boxed;
pub mod by_id;
mod bytes;
mod catalog;
mod events;
mod factors;
mod faults;
mod grants;
mod id;
mod id_table;
mod ids;
mod key;
mod kinds;
mod laws;
pub mod limits;
mod list;
mod lists;
mod memory;
mod method;
mod named;
mod near;
mod receipt;
mod refusal;
mod row;
mod row_set;
mod rows;
mod shapes;
mod sides;
mod text;
mod trusts;
mod users;

pub use app_creds::AppCredRow;
pub use boxed::Boxed;
pub use bytes::Bytes;
pub use catalog::{
    CatalogFault, CatalogIn, CatalogKind, CatalogRow, EndpointRow, Interface, RegionRow, ServiceRow,
};
pub use events::{EventRow, Holder, Revoke};
pub use factors::{MfaRow, SecretRow};
pub use faults::{KeysFault, LoadFault, RowFault, TreeFault, TrustFault};
pub use grants::{Actor, GrantRow, GrantSite, ImplyRow, Target};
pub use id::{Id, IdFault};
pub use id_table::IdTable;
pub use ids::has_id;
pub use key::Key;
pub use kinds::Kind;
pub use laws::{
    group_grant_is_its_members, implied_again_is_implied, implied_of_more,
    inherited_misses_its_domain, named_is_implied, new_trust_leads_as_its_parent,
    on_domain_is_direct, trust_goes_with_those_above, trust_leads_to_its_first_trustor,
};
pub use list::{ListOf, TryCopy};
pub use lists::{
    AppCredList, DomainList, EndpointList, EventList, FieldList, GrantList, GroupList, IdList,
    ImplyList, IndexList, KeyList, MemberList, MethodList, ProjectList, RegionList, RoleList,
    ServiceList, TextList, TrustList, UserList,
};
pub use memory::Memory;
pub use method::Method;
pub use named::{Homed, InDomain, Named, Outside};
pub use near::{InRuns, Near, OfRun, run_of};
pub use receipt::{Drawn, Receipt};
pub use refusal::refuse_if;
pub use row::{Row, Test};
pub use row_set::{Ordered, RowSet};
pub use rows::{DomainRow, GroupRow, ProjectRow, RoleRow};
pub use shapes::{Filter, ShapeFault, ShapeRefusal};
pub use sides::{Far, Side};
pub use text::Text;
pub use trusts::TrustRow;
pub use users::{ByUser, InGroup, MemberRow, OfUser, PasswordRow, UserRow};
