ghost use Rattle.std.specs.Prelude.{◌≡◌, [], option_copied};
ghost use Rattle.ks_base.specs.Rows.{trust_of, has_id};
ghost use Rattle.ks_base.specs.Tables.{id_cmp, IsAscending};
ghost use Rattle.ks_base.specs.Trusts.{parent_trust, AreChained};

use crate::sides::TrustSide;
use ks_base::by_id::place;
use ks_base::{Boxed, Id, IdList, RowSet, TrustRow};
use std::alloc::Global;
use std::marker::Model;

/// Trusts in the order of their ids. The parent of each redelegation stands.
///
/// A use is taken in place, since a copy of a row would take memory; so the rows stand in a vector and not in a
/// table. They stand behind pointers, so that making way for one among them moves little.
#[derive(Drop)]
pub struct Trusts {
    pub(crate) rows: Vec<Boxed<TrustRow>>,
    /// What they name.
    pub(crate) sides: RowSet<TrustSide>,
}

impl Model for Trusts {
    ghost use Rattle.std.specs.Prelude.{List};
    ghost use Rattle.ks_base.specs.declared.trusts.TrustRow.{TrustRow};
    ghost use Rattle.ks_base.specs.Tables.{id_cmp, IsAscending};
    ghost use Rattle.ks_base.specs.Trusts.{AreChained};
    ghost use Rattle.ks_trust.specs.Sides.{AreSides};

    ghost Value = { List TrustRow };

    ghost view = { λ trusts. trusts.rows.items };

    ghost invariant = { λ trusts. IsAscending id_cmp (λ row. row.id) trusts.rows.items × AreChained trusts.rows.items × AreSides trusts.rows.items trusts.sides };
}

/// Whether the role is one of these, which stand in any order.
pub(crate) fn lists_role(roles: &IdList, role: &Id) -> bool
    ensures { result ≡ has_id roles.now role.now }
{
    roles.as_slice().iter().any(|other| other == role)
}

impl Trusts {
    /// No trusts, which take no memory yet.
    pub fn new(alloc: Global) -> Trusts
        ensures { result ≡ [] }
    {
        Trusts {
            rows: Vec::new(alloc),
            sides: RowSet::new(alloc),
        }
    }

    /// The trust with this id.
    pub fn trust(&self, id: &Id) -> Option<&TrustRow>
        ensures found { option_copied result ≡ trust_of id.now self.now }
        ensures ascending { IsAscending id_cmp (λ row. row.id) self.now }
        ensures chained { AreChained self.now }
    {
        match place(self.rows.as_slice(), id) {
            Ok(at) => Some(self.rows[at].get()),
            Err(_) => None,
        }
    }

    /// All trusts, in the order of their ids.
    pub fn rows(&self) -> &[Boxed<TrustRow>]
        ensures rows { result.now ≡ self.now }
        ensures ascending { IsAscending id_cmp (λ row. row.id) self.now }
        ensures chained { AreChained self.now }
    {
        self.rows.as_slice()
    }

    /// The trust of which this one is a redelegation.
    pub fn parent(&self, trust: &TrustRow) -> Option<&TrustRow>
        ensures { option_copied result ≡ parent_trust self.now trust.now.parent }
    {
        match &trust.parent {
            Some(id) => self.trust(id),
            None => None,
        }
    }
}
