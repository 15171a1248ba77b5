//! What holds of the definitions alone, for callers that have only these.
ghost use Rattle.std.specs.Prelude.{◌≡◌, Some, None, codes};
ghost use Rattle.ks_catalog.specs.Urls.{filled_url};

/// How some URLs fill: each kind of place, a place within the text of another, and marks that begin no place. The call
/// does nothing: its contract is the law.
#[tactic(auto, unfolding(crate::specs::Urls::filled_url, crate::specs::Urls::filled_behind, crate::specs::Urls::has_place, crate::specs::Urls::name_length))]
pub fn some_urls_filled()
    ensures place { filled_url (Some (codes "a01")) (codes "http://c:8774/$(project_id)s") ≡ Some (codes "http://c:8774/a01") }
    ensures places { filled_url (Some (codes "a01")) (codes "%(project_id)s/$(tenant_id)s/%(tenant_id)s") ≡ Some (codes "a01/a01/a01") }
    ensures within { filled_url (Some (codes "id")) (codes "$(project_$(tenant_id)s)s") ≡ Some (codes "$(project_id)s") }
    ensures unfilled { filled_url None (codes "http://c:8774/$(project_id)s") ≡ None }
    ensures whole { filled_url None (codes "http://c/%24$(user_id)s") ≡ Some (codes "http://c/%24$(user_id)s") }
{}
