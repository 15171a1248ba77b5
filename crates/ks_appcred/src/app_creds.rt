ghost use Rattle.std.specs.Prelude.{◌≡◌, [], length, map, option_copied, IfOk};
ghost use Rattle.std.specs.Arc.{arc_value};
ghost use Rattle.ks_base.specs.AppCreds.{cred_named, cred_of, creds_of};
ghost use Rattle.ks_base.specs.Tables.{id_cmp, IsAscending};

use crate::two_orders::TwoOrders;
use ks_base::{AppCredRow, Id, IdList, Memory, Text};
use std::alloc::Global;
use std::marker::Model;
use std::sync::Arc;

/// The application credentials of all users (Identity API v3, application credentials), which contracts see as the list of
/// their rows in the order of their ids. They are found by id, by user, and by user and name, without going through
/// them all. Names are unique among those of a user.
#[derive(Drop)]
pub struct AppCreds {
    pub(crate) creds: TwoOrders<AppCredRow>,
}

impl Model for AppCreds {
    ghost use Rattle.ks_base.specs.AppCreds.{AppCredsState};

    ghost Value = { AppCredsState };

    ghost view = { λ all. all.creds };
}

impl AppCreds {
    /// No credentials, which take no memory yet.
    pub fn new(alloc: Global) -> AppCreds
        ensures { result ≡ [] }
    {
        AppCreds {
            creds: TwoOrders::new(alloc),
        }
    }

    /// The credential with this id.
    pub fn row(&self, id: &Id) -> Option<&AppCredRow>
        ensures found { option_copied result ≡ cred_of id.now self.now }
        ensures ascending { IsAscending id_cmp (λ row. row.id) self.now }
    {
        self.creds.get(id)
    }

    /// The credential of this user with this name, compared by bytes.
    pub fn named(&self, user: &Id, name: &Text) -> Option<&AppCredRow>
        ensures { option_copied result ≡ cred_named user.now name.now self.now }
    {
        self.creds.named(user.as_slice(), name.as_slice())
    }

    /// The ids of the user's credentials, in their order. Only the user's own are looked at.
    pub fn of_user(&self, user: &Id) -> Result<IdList, Memory>
        ensures { IfOk result (λ ids. ids ≡ creds_of user.now self.now) }
    {
        self.creds.ids_within(user.as_slice())
    }

    /// All credentials, in the order of their ids.
    pub fn rows(&self) -> &[Arc<AppCredRow>]
        ensures rows { map arc_value result.now ≡ self.now }
        ensures ascending { IsAscending id_cmp (λ row. row.id) self.now }
    {
        self.creds.rows()
    }

    /// How many credentials there are.
    pub fn len(&self) -> usize
        ensures { result ≡ length self.now }
    {
        self.creds.len()
    }
}
