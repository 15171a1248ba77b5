//! What the effective roles of a user are, as laws of the definitions.
ghost use Rattle.std.specs.Prelude.{◌≡◌, ◌≢◌, ◌↔◌, ◌⊎◌, List, true, IfSome};
ghost use Rattle.ks_base.specs.declared.grants.GrantRow.{GrantRow};
ghost use Rattle.ks_base.specs.declared.grants.ImplyRow.{ImplyRow};
ghost use Rattle.ks_base.specs.declared.grants.Target.{Target};
ghost use Rattle.ks_base.specs.declared.grants.Target.TheVariants as targets;
ghost use Rattle.ks_base.specs.declared.rows.ProjectRow.{ProjectRow};
ghost use Rattle.ks_base.specs.Orders.{grant_cmp, imply_cmp};
ghost use Rattle.ks_base.specs.Roles.{Walks, Reaches, Effective};
ghost use Rattle.ks_base.specs.Rows.{Id, Rows, project_of};
ghost use Rattle.ks_base.specs.Tables.{Among, drop_row, put_row};
ghost use Rattle.ks_base.specs.Tree.{ancestors};
ghost use Rattle.ks_effective.specs.Tops.{LeadsUp};

/// Taking a grant away never adds a role.
pub fn taking_a_grant_away_adds_none()
    ensures { (rows : Rows) (grant : GrantRow) (user : Id) (wanted : Target) (role : Id) → Effective (record rows { grants = drop_row grant_cmp (λ row. row) grant rows.grants }) user wanted role → Effective rows user wanted role }
{}

/// A project whose parents lead up to a top project is none of its own ancestors, so that an inherited grant on
/// it does not reach it.
pub fn project_lies_not_above_itself()
    ensures ancestors { (projects : List ProjectRow) (id : Id) → IfSome (project_of id projects) (LeadsUp projects) → ¬ Among (ancestors projects id) id }
    ensures reach { (projects : List ProjectRow) (id : Id) → IfSome (project_of id projects) (LeadsUp projects) → ¬ Reaches projects true (targets.Project id) (targets.Project id) }
{}

/// A role that is effective on a project by an inherited grant on one above it, as its parent, is not effective
/// on that one by the same grant.
pub fn inherited_grant_skips_its_project()
    ensures { (rows : Rows) (user id above role : Id) → IfSome (project_of id rows.projects) (LeadsUp rows.projects) → (below : Effective rows user (targets.Project id) role) → below.grant.inherited ≡ true → below.grant.target ≡ targets.Project above → (there : Effective rows user (targets.Project above) role) → there.grant ≢ below.grant }
{}

/// An implication adds the implied role, with all that it implies, wherever the prior role is effective, and
/// nowhere else.
pub fn implication_adds_its_role()
    ensures { (rows : Rows) (row : ImplyRow) (user : Id) (wanted : Target) (role : Id) → Effective (record rows { implications = put_row imply_cmp (λ next. next) row rows.implications }) user wanted role ↔ (Effective rows user wanted role ⊎ (Effective rows user wanted row.prior × Walks rows.implications row.implied role)) }
{}
