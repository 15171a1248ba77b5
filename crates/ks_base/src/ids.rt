ghost use Rattle.std.specs.Prelude.{◌≡◌};
ghost use Rattle.ks_base.specs.Rows.{has_id};
ghost use Rattle.ks_base.specs.Tables.{id_cmp, IsAscending};

use crate::Id;

/// Whether the id is one of these, which ascend.
pub fn has_id(ids: &[Id], id: &Id) -> bool
    requires { IsAscending id_cmp (λ other. other) ids.now }
    ensures { result ≡ has_id ids.now id.now }
{
    match ids.binary_search(id) {
        Ok(_) => true,
        Err(_) => false,
    }
}
