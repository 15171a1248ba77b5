ghost use Rattle.std.specs.Prelude.{◌≡◌, ◌≢◌, ◌-◌, Err, None, OnErr, OnOk, option_map};
ghost use Rattle.ks_base.specs.Refusals.{Changes, Decides};
ghost use Rattle.ks_base.specs.Rows.{trust_of};
ghost use Rattle.ks_base.specs.Tables.{id_cmp, IsAscending};
ghost use Rattle.ks_base.specs.Trusts.{creation_fault, use_fault, use_trust, FollowsParent, IsChained};
ghost use Rattle.ks_trust.specs.State.{with_trust, without_trusts, IsClosed};

use crate::Trusts;
use crate::checks::usable;
use crate::sides::{Unlisted, drop_few, insert};
use ks_base::by_id::place;
use ks_base::{Id, IdList, Memory, Row, TrustFault, TrustRow, has_id};
use ks_links::FEW;

/// How often a trust serves yet after one use more.
fn lowered(remaining: Option<u64>) -> Option<u64>
    ensures { result ≡ option_map (λ left. left - 1) remaining }
{
    match remaining {
        Some(left) => Some(left.saturating_sub(1)),
        None => None,
    }
}

impl Trusts {
    /// Adds a trust, where `held` are the roles that its first trustor has in its project.
    ///
    /// Under a parent it is refused where none may follow it (`DepthOut`), where it has not a role of the trust
    /// (`RoleNotInParent`), does not impersonate as the trust does (`Impersonation`) or expires before it
    /// (`LaterThanParent`), and where the trust has a number of uses of its own (`UsesSet`). Then refused are a
    /// role that is not held (`RoleLost`), an expiry that is not above the moment (`Expired`), the 65,537th trust
    /// (`Full`) and an id that a trust has (`IdTaken`). Whatever is refused changes nothing.
    #[tactic(auto, using(ks_base::proofs::RefusalLemmas::refused))]
    pub fn create(&mut self, row: TrustRow, held: &IdList, moment: u64) -> Result<(), TrustFault>
        requires { FollowsParent self.old row }
        ensures { Changes TrustFault.Memory (creation_fault self.old held.now moment row) self.old (with_trust row self.old) result self.new }
    {
        self.may_create(&row, held, moment)?;
        match self.add(row) {
            Ok(()) => Ok(()),
            Err(Memory) => Err(TrustFault::Memory),
        }
    }

    /// Takes one use of the trust, where they are numbered. Refused are an id that no trust has (`Absent`), a user
    /// that is not the trustee (`NotTrustee`), an expiry that is not above the moment (`Expired`) and a trust
    /// without a use left (`Spent`). It takes no memory.
    pub fn use_one(&mut self, id: &Id, trustee: &Id, moment: u64) -> Result<(), TrustFault>
        ensures decides { Decides (use_fault self.old id.now trustee.now moment) self.old (use_trust id.now self.old) result self.new }
        ensures memory { result ≢ Err TrustFault.Memory }
    {
        let at = usable(self.rows.as_slice(), id, trustee, moment)?;
        let row = self.rows[at].get_mut();
        row.remaining = lowered(row.remaining);
        Ok(())
    }

    /// Takes the trusts with these ids out. It takes no memory. Where they are few, no other trust is looked at.
    pub fn drop_all(&mut self, ids: &IdList)
        requires closed { IsClosed self.old ids.now }
        requires ascending { IsAscending id_cmp (λ id. id) ids.now }
        ensures { self.new ≡ without_trusts ids.now self.old }
    {
        let ids = ids.as_slice();
        if ids.len() > FEW {
            self.keep_others(ids);
        } else {
            self.drop_few(ids);
        }
    }

    fn keep_others(&mut self, ids: &[Id])
        requires closed { IsClosed self.old ids.now }
        requires ascending { IsAscending id_cmp (λ id. id) ids.now }
        ensures { self.new ≡ without_trusts ids.now self.old }
    {
        self.rows.retain(|row| !has_id(ids, row.id()));
        self.sides.keep(&Unlisted { ids });
    }

    fn drop_few(&mut self, ids: &[Id])
        requires { IsClosed self.old ids.now }
        ensures { self.new ≡ without_trusts ids.now self.old }
    {
        drop_few(&mut self.rows, &mut self.sides, ids);
    }

    /// Puts a new trust in its place.
    fn add(&mut self, row: TrustRow) -> Result<(), Memory>
        requires new { trust_of row.id self.old ≡ None }
        requires chained { IsChained self.old row }
        ensures ok { OnOk result (self.new ≡ with_trust row self.old) }
        ensures err { OnErr result (self.new ≡ self.old) }
    {
        let Err(at) = place(self.rows.as_slice(), &row.id) else {
            unreachable!()
        };
        insert(&mut self.rows, &mut self.sides, at, row)?;
        Ok(())
    }
}
