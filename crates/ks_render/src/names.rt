//! The names by which errors tell kinds and faults.
ghost use Rattle.std.specs.Prelude.{◌≡◌};
ghost use Rattle.ks_machine.specs.Actions.{kind_word};
ghost use Rattle.ks_render.specs.Names.{keys_name, tree_name, trust_name};

use ks_base::{KeysFault, Kind, TreeFault, TrustFault};

pub fn kind_name(kind: Kind) -> &'static str
    ensures { result.now ≡ kind_word kind }
{
    match kind {
        Kind::Domain => "domain",
        Kind::Project => "project",
        Kind::User => "user",
        Kind::Group => "group",
        Kind::Role => "role",
        Kind::Implication => "implication",
        Kind::Grant => "grant",
        Kind::Member => "member",
        Kind::Trust => "trust",
        Kind::Event => "event",
        Kind::Region => "region",
        Kind::Service => "service",
        Kind::Endpoint => "endpoint",
        Kind::AppCred => "appcred",
        Kind::Secret => "secret",
    }
}

#[tactic(auto, unfolding(crate::specs::Names::tree_name))]
pub fn tree_name(fault: &TreeFault) -> &'static str
    ensures { result.now ≡ tree_name fault.now }
{
    match fault {
        TreeFault::Absent(_, _) => "Absent",
        TreeFault::NoParent(_) => "NoParent",
        TreeFault::TooDeep => "TooDeep",
        TreeFault::HasChildren(_) => "HasChildren",
        TreeFault::EnabledBelow(_) => "EnabledBelow",
        TreeFault::DisabledAbove(_) => "DisabledAbove",
        TreeFault::DomainEnabled => "DomainEnabled",
        TreeFault::NameTaken(_) => "NameTaken",
        TreeFault::Full(_) => "Full",
        TreeFault::IdTaken(_) => "IdTaken",
        TreeFault::Memory => "Memory",
    }
}

#[tactic(auto, unfolding(crate::specs::Names::trust_name))]
pub fn trust_name(fault: &TrustFault) -> &'static str
    ensures { result.now ≡ trust_name fault.now }
{
    match fault {
        TrustFault::NotTrustor => "NotTrustor",
        TrustFault::NotParent => "NotParent",
        TrustFault::NoRoles => "NoRoles",
        TrustFault::DepthOut => "DepthOut",
        TrustFault::RoleNotInParent(_) => "RoleNotInParent",
        TrustFault::Impersonation => "Impersonation",
        TrustFault::UsesSet => "UsesSet",
        TrustFault::LaterThanParent => "LaterThanParent",
        TrustFault::RoleLost(_) => "RoleLost",
        TrustFault::Expired => "Expired",
        TrustFault::Absent(_) => "Absent",
        TrustFault::NotTrustee => "NotTrustee",
        TrustFault::Spent => "Spent",
        TrustFault::UserOff(_) => "UserOff",
        TrustFault::Full(_) => "Full",
        TrustFault::IdTaken(_) => "IdTaken",
        TrustFault::Memory => "Memory",
    }
}

#[tactic(auto, unfolding(crate::specs::Names::keys_name))]
pub fn keys_name(fault: &KeysFault) -> &'static str
    ensures { result.now ≡ keys_name fault.now }
{
    match fault {
        KeysFault::Failed => "Failed",
        KeysFault::NoKeys => "NoKeys",
        KeysFault::BadKey(_) => "BadKey",
        KeysFault::TooMany => "TooMany",
        KeysFault::AlreadySet => "AlreadySet",
        KeysFault::IndexEnd => "IndexEnd",
        KeysFault::Memory => "Memory",
    }
}
