//! The names by which the listings of what is no kind of rows are filtered.
ghost use Rattle.std.specs.Prelude.{◌≡◌};
ghost use Rattle.ks_routes.specs.Queries.{assignment_filters, trust_filters};
ghost use Rattle.ks_shape.specs.Places.{names_in};

/// Those of role assignments.
pub fn assignment_filters() -> &'static [&'static str]
    ensures { names_in result.now ≡ assignment_filters }
{
    &[
        "user.id",
        "group.id",
        "role.id",
        "scope.project.id",
        "scope.domain.id",
        "scope.system",
        "effective",
    ]
}

/// Those of trusts.
pub fn trust_filters() -> &'static [&'static str]
    ensures { names_in result.now ≡ trust_filters }
{
    &["trustor_user_id", "trustee_user_id"]
}
