ghost use Rattle.ks_shape.specs.Places.{names_in, place_of};
ghost use Rattle.ks_shape.specs.Readings.{Reads};
ghost use Rattle.ks_shape.specs.Trusts.{limits_asked, limits_of, roles_at, trust_of};

use crate::misfit::Misfit;
use crate::names::all_named;
use crate::node::Node;
use crate::types::{Count, IdText, TimeText, Truth, Whole};
use ks_base::limits::{self, TRUST_ROLES};
use ks_base::{Id, ShapeRefusal};
use ks_machine::{NamedList, TrustBody};

const USES: Whole = Whole {
    least: 1,
    most: limits::USES,
};

#[derive(Drop)]
pub struct Limits {
    expires: Option<u64>,
    remaining: Option<u64>,
    redelegate: bool,
    count: Option<u32>,
    parent: Option<Id>,
}

#[tactic(auto, unfolding(crate::specs::Trusts::roles_at))]
fn roles(names: &[&str], body: &Node) -> Result<NamedList, ShapeRefusal>
    ensures { Reads result (roles_at (names_in names.now) (place_of body.now)) }
{
    let values = body.needed_list(names, TRUST_ROLES)?;
    let path = body.path_at(names)?;
    all_named(body.alloc, &path, values.as_slice())
}

/// How long, how often and how far down a trust is to serve.
#[tactic(auto, unfolding(crate::specs::Trusts::limits_asked))]
fn limits_asked(body: &Node) -> Result<Limits, ShapeRefusal>
    ensures { Reads result (limits_asked (place_of body.now)) }
{
    let expires = body.optional(&["trust", "expires_at"], &TimeText)?;
    let remaining = body.optional(&["trust", "remaining_uses"], &USES)?;
    let redelegate = body.optional(&["trust", "allow_redelegation"], &Truth)?;
    let count = body.optional(&["trust", "redelegation_count"], &Count)?;
    let parent = body.optional(&["trust", "redelegated_trust_id"], &IdText)?;
    Ok(Limits {
        expires,
        remaining,
        redelegate: redelegate.unwrap_or(false),
        count,
        parent,
    })
}

/// The same, where a trust that counts its uses is not passed on: what is passed on would be counted nowhere.
#[tactic(auto, using(crate::proofs::RefusalLemmas::refused), unfolding(crate::specs::Trusts::limits_of))]
fn read_limits(body: &Node) -> Result<Limits, ShapeRefusal>
    ensures { Reads result (limits_of (place_of body.now)) }
{
    let limits = limits_asked(body)?;
    if limits.remaining.is_some() && limits.redelegate {
        return body.refuse(&["trust", "remaining_uses"], Misfit::Range);
    }
    Ok(limits)
}

/// The body that makes a trust.
#[tactic(auto, unfolding(crate::specs::Trusts::trust_of))]
pub fn trust(body: &Node) -> Result<TrustBody, ShapeRefusal>
    ensures { Reads result (trust_of (place_of body.now)) }
{
    let trustor = body.needed(&["trust", "trustor_user_id"], &IdText)?;
    let trustee = body.needed(&["trust", "trustee_user_id"], &IdText)?;
    let project = body.needed(&["trust", "project_id"], &IdText)?;
    let impersonation = body.needed(&["trust", "impersonation"], &Truth)?;
    let roles = roles(&["trust", "roles"], body)?;
    let limits = read_limits(body)?;
    Ok(TrustBody {
        trustor,
        trustee,
        project,
        impersonation,
        roles,
        expires: limits.expires,
        remaining: limits.remaining,
        redelegate: limits.redelegate,
        count: limits.count,
        parent: limits.parent,
    })
}
