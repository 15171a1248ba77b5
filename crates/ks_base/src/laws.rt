//! What grants, implications and chains of trusts mean, as laws of the definitions.
ghost use Rattle.std.specs.Prelude.{◌≡◌, ◌↔◌, Bool, List, true, false};
ghost use Rattle.ks_base.specs.declared.grants.Actor.TheVariants as actors;
ghost use Rattle.ks_base.specs.declared.grants.ImplyRow.{ImplyRow};
ghost use Rattle.ks_base.specs.declared.grants.Target.TheVariants as targets;
ghost use Rattle.ks_base.specs.declared.rows.ProjectRow.{ProjectRow};
ghost use Rattle.ks_base.specs.declared.users.MemberRow.{MemberRow};
ghost use Rattle.ks_base.specs.Rows.{Id, Rows};
ghost use Rattle.ks_base.specs.Tables.{Among};
ghost use Rattle.ks_base.specs.Roles.{Acts, Reaches, Effective, IsImplied};
ghost use Rattle.ks_base.specs.declared.trusts.TrustRow.{TrustRow};
ghost use Rattle.ks_base.specs.Trusts.{DescendsFrom, LeadsTo, IsChained, AreChained, first_trustor, first_of_new, goes};

/// An inherited grant on a domain reaches neither that domain nor another one.
pub fn inherited_misses_its_domain()
    ensures { (projects : List ProjectRow) (domain wanted : Id) → ¬ Reaches projects true (targets.Domain domain) (targets.Domain wanted) }
{}

/// What is effective on a domain comes of a direct grant on it.
pub fn on_domain_is_direct()
    ensures { (rows : Rows) (user domain role : Id) (effective : Effective rows user (targets.Domain domain) role) → (effective.grant.inherited ≡ false) × (effective.grant.target ≡ targets.Domain domain) }
{}

/// A grant to a group acts for nobody who is no member of it.
pub fn group_grant_is_its_members()
    ensures { (members : List MemberRow) (user group : Id) → ¬ Among members (record { group = group; user = user }) → ¬ Acts members user (actors.Group group) }
{}

/// Each role is among those that it implies.
#[tactic(auto, using(crate::proofs::WalkLemmas::extensive))]
pub fn named_is_implied()
    ensures { (implications : List ImplyRow) (roles : List Id) (role : Id) → Among roles role → IsImplied implications roles role }
{}

/// The roles that a whole closure implies are those of the closure.
pub fn implied_again_is_implied()
    ensures { (implications : List ImplyRow) (roles closure : List Id) → ((id : Id) → Among closure id ↔ IsImplied implications roles id) → (role : Id) → IsImplied implications closure role ↔ Among closure role }
{}

/// More roles and more implications imply no less.
pub fn implied_of_more()
    ensures { (implications more_implications : List ImplyRow) (roles more_roles : List Id) → ((row : ImplyRow) → Among implications row → Among more_implications row) → ((id : Id) → Among roles id → Among more_roles id) → (role : Id) → IsImplied implications roles role → IsImplied more_implications more_roles role }
{}

/// Where counts rise from parent to parent, what is computed as the first trustor of a trust is the one to whom
/// it leads.
pub fn trust_leads_to_its_first_trustor()
    ensures { (trusts : List TrustRow) (trust : TrustRow) (first : Id) → AreChained trusts → IsChained trusts trust → LeadsTo trusts trust first ↔ (first_trustor trusts trust ≡ first) }
{}

/// A trust that is to be made leads to the first trustor of its parent, or to its own trustor.
pub fn new_trust_leads_as_its_parent()
    ensures { (trusts : List TrustRow) (trust : TrustRow) (first : Id) → AreChained trusts → IsChained trusts trust → LeadsTo trusts trust first ↔ (first_of_new trusts trust ≡ first) }
{}

/// A trust goes exactly where it descends from one that is touched.
#[tactic(auto, using(crate::proofs::ChainLemmas::goes_from))]
pub fn trust_goes_with_those_above()
    ensures { (trusts : List TrustRow) (touched : TrustRow → Bool) (trust : TrustRow) → AreChained trusts → IsChained trusts trust → (goes trusts touched trust ≡ true) ↔ ((top : TrustRow) × DescendsFrom trusts trust top × (touched top ≡ true)) }
{}
