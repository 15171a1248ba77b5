ghost use Rattle.std.specs.Prelude.{◌≡◌, ◌<◌, ◌≤◌, ◌+◌, ℕ, List, IfOk};
ghost use Rattle.ks_auth.specs.Answers.{IsOfUser, IsVerdict, Tells, rows_told};
ghost use Rattle.ks_auth.specs.Facts.{told};
ghost use Rattle.ks_auth.specs.Lines.{row_lines};
ghost use Rattle.ks_base.specs.declared.events.EventRow.{EventRow};
ghost use Rattle.ks_base.specs.Revocation.{window};
ghost use Rattle.ks_machine.specs.States.{State};
ghost use Rattle.ks_machine.specs.Validity.{validity};
ghost use Rattle.ks_payload.specs.Payloads.{IsInRange};
ghost use Rattle.ks_revoke.specs.Histories.{Stands};

use crate::credential::is_cred_line;
use crate::holder::holder;
use crate::opening::{Halt, held};
use crate::roles::{has_roles, roles_of};
use crate::scope::{is_scope_on, is_trust_line, is_user_on};
use crate::{Facts, Tables, Verdict};
use ks_base::{Memory, Text};
use ks_machine::{Why, credentials_are_bounded};
use ks_payload::Payload;
use std::alloc::Global;

/// What the text is at this moment, by the lines of a token's validity in their order (OpenStack Identity API v3,
/// tokens), in each state that the tables tell. It needs a fact exactly where a key above the first that is known to
/// open the text has none about it. `late` says whether the request allows an expired token, for two days. Only the
/// roles take memory.
pub fn validate(
    alloc: Global,
    tables: &Tables,
    moment: u64,
    text: &Text,
    late: bool,
    facts: &Facts,
) -> Result<Verdict, Memory>
    requires moment { tables.now.revoked.now.high ≤ moment }
    requires life { tables.now.revoked.now.life ≡ tables.now.settings.now.life }
    ensures verdict { (S : State) → Tells tables.now S → IsVerdict (validity (told facts.now) S moment late text.now) result }
    ensures user { IfOk result (λ verdict. IsOfUser tables.now.people.now.users verdict) }
{
    // What a valid token of an application credential may do is bounded by what its user has.
    credentials_are_bounded();
    match held(tables, moment, text, late, facts) {
        Ok((payload, issued)) => judge(alloc, tables, moment, payload, issued),
        Err(Halt::Refused(why)) => Ok(Verdict::Refused(why)),
        Err(Halt::Needs) => Ok(Verdict::Needs),
    }
}

/// What a token is whose first lines hold, so that revocations are asked of it while they are live.
#[tactic(auto, unfolding(crate::specs::Lines::row_lines))]
fn judge(
    alloc: Global,
    tables: &Tables,
    moment: u64,
    payload: Payload,
    issued: u64,
) -> Result<Verdict, Memory>
    requires time { tables.now.revoked.now.high < issued + tables.now.revoked.now.life + window }
    requires range { IsInRange payload }
    ensures verdict { (events : List EventRow) → Stands tables.now.revoked.now (record { life = tables.now.revoked.now.life; high = tables.now.revoked.now.high; events = events }) → IsVerdict (row_lines (rows_told tables.now) events moment payload issued) result }
    ensures user { IfOk result (λ verdict. IsOfUser tables.now.people.now.users verdict) }
{
    if tables.revoked.test(&holder(tables, &payload), issued) {
        return Ok(Verdict::Refused(Why::Revoked));
    }
    if !is_user_on(tables, &payload.user) {
        return Ok(Verdict::Refused(Why::User));
    }
    if !is_scope_on(tables, &payload) {
        return Ok(Verdict::Refused(Why::Scope));
    }
    if !is_trust_line(tables, moment, &payload) {
        return Ok(Verdict::Refused(Why::Trust));
    }
    if !is_cred_line(tables, moment, &payload) {
        return Ok(Verdict::Refused(Why::Credential));
    }
    let roles = roles_of(alloc, tables, &payload)?;
    if !has_roles(alloc, tables, &payload, roles.as_slice())? {
        return Ok(Verdict::Refused(Why::Roles));
    }
    Ok(Verdict::Valid(payload, issued, roles))
}
