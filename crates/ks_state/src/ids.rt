ghost use Rattle.std.specs.Prelude.{◌≡◌};
ghost use Rattle.ks_base.specs.Tables.{id_cmp, IsAscending};
ghost use Rattle.ks_base.specs.Rows.{has_id};

use ks_base::{Id, IdList, has_id};
use std::marker::Model;

/// Ids, each once, in their order.
#[derive(Drop)]
pub(crate) struct IdSet {
    ids: IdList,
}

impl Model for IdSet {
    ghost use Rattle.std.specs.Prelude.{ℕ, List};
    ghost use Rattle.ks_base.specs.Tables.{id_cmp, IsAscending};

    ghost Value = { List (List ℕ) };

    ghost view = { λ set. set.ids };

    ghost invariant = { λ set. IsAscending id_cmp (λ id. id) set.ids };
}

impl IdSet {
    /// The ids of a list that is in order.
    pub(crate) fn of(ids: IdList) -> IdSet
        requires { IsAscending id_cmp (λ id. id) ids }
        ensures { result ≡ ids }
    {
        IdSet { ids }
    }

    /// Whether the id is one of them.
    pub(crate) fn has(&self, id: &Id) -> bool
        ensures { result ≡ has_id self.now id.now }
    {
        has_id(self.ids.as_slice(), id)
    }

    /// The ids, in their order.
    pub(crate) fn as_slice(&self) -> &[Id]
        ensures { result.now ≡ self.now }
    {
        self.ids.as_slice()
    }
}
