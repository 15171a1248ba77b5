//! The steps of a drill. The caller of each call but the logins is the text of the token of its administrator.
ghost use Rattle.std.specs.Prelude.{◌≡◌, ◌+◌, ◌*◌, ◌<◌, ◌≤◌, ◌^◌, length, IfOk};
ghost use Rattle.ks_base.specs.declared.limits.TheConstants.{DRILL_MEMBERS, DRILL_START};
ghost use Rattle.ks_drill.specs.Drill.{checks, drill, ending_if, endings, member, members, role_number};

use crate::calls::copied;
use crate::commands::{end_token, grant, log_in, new_project, new_user, validate};
use crate::opening::{ROOT, root_id};
use crate::replies::{id_in, line, text_in};
use crate::session::Session;
use crate::words::{numbered, role_id};
use ks_base::{ListOf, Memory, Text};
use ks_machine::Reply;
use ks_turn::First;
use std::alloc::Global;
use std::sync::Wait;

/// Which role a member has.
fn role_number(start: u64, i: u64) -> u64
    requires start { start ≤ DRILL_START }
    requires member { i < 2 ^ 32 }
    ensures { result ≡ role_number start i }
{
    (start + 7 * i) % 11
}

/// Makes a member: its project, the user and the role. The reply is that to its login.
fn member<N: First, R: Wait>(
    alloc: Global,
    rt: &R,
    session: Session<N>,
    caller: &Option<Text>,
    start: u64,
    i: u32,
) -> Result<(Session<N>, Reply), Memory>
    requires start { start ≤ DRILL_START }
    requires calls { session.calls ≤ 8_001 }
    ensures made { IfOk result (λ made. made ≡ member caller.now start i session) }
    ensures calls { IfOk result (λ made. made.0.calls ≡ session.calls + 4) }
{
    let (session, project) = session.ask(rt, new_project(alloc, i)?, copied(caller)?, None)?;
    let (session, user) = session.ask(rt, new_user(alloc, i)?, copied(caller)?, None)?;
    let (user, project) = (id_in(&user), id_in(&project));
    let role = role_id(alloc, role_number(start, u64::from(i)))?;
    let (session, _granted) = session.ask(rt, grant(user, project, role), copied(caller)?, None)?;
    let password = numbered(alloc, "w", u64::from(i))?;
    let command = log_in(alloc, user, password, project)?;
    session.ask(rt, command, None, None)
}

/// Makes so many members, and answers the replies to their logins.
fn members<N: First, R: Wait>(
    alloc: Global,
    rt: &R,
    mut session: Session<N>,
    caller: &Option<Text>,
    start: u64,
    count: u32,
) -> Result<(Session<N>, ListOf<Reply>), Memory>
    requires start { start ≤ DRILL_START }
    requires count { count ≤ DRILL_MEMBERS }
    requires calls { session.calls ≤ 1 }
    ensures made { IfOk result (λ made. made ≡ members caller.now start count session) }
    ensures calls { IfOk result (λ made. made.0.calls ≤ 8_001) }
    ensures many { IfOk result (λ made. length made.1 ≡ count) }
{
    let mut logins = ListOf::new(alloc);
    for i in 0..count {
        let (next, login) = member(alloc, rt, session, caller, start, i)?;
        session = next;
        logins.push(login)?;
    }
    Ok((session, logins))
}

/// Ends the token of a login, where its member has one of the first three roles.
#[tactic(auto, unfolding(crate::specs::Drill::ending_if))]
fn ending_if<N: First, R: Wait>(
    rt: &R,
    session: Session<N>,
    caller: &Option<Text>,
    start: u64,
    i: u64,
    login: &Reply,
) -> Result<Session<N>, Memory>
    requires start { start ≤ DRILL_START }
    requires member { i < 2 ^ 32 }
    requires calls { session.calls < 2 ^ 32 }
    ensures ended { IfOk result (λ ended. ended ≡ (ending_if caller.now start i login.now session).0) }
    ensures calls { IfOk result (λ ended. ended.calls ≤ session.calls + 1) }
{
    if role_number(start, i) < 3 {
        let (session, _ended) = session.ask(rt, end_token(), copied(caller)?, text_in(login)?)?;
        Ok(session)
    } else {
        Ok(session)
    }
}

/// Ends the tokens of the members with one of the first three roles.
fn endings<N: First, R: Wait>(
    rt: &R,
    mut session: Session<N>,
    caller: &Option<Text>,
    start: u64,
    logins: &[Reply],
) -> Result<Session<N>, Memory>
    requires start { start ≤ DRILL_START }
    requires few { length logins.now ≤ DRILL_MEMBERS }
    requires calls { session.calls ≤ 8_001 }
    ensures ended { IfOk result (λ ended. ended ≡ (endings caller.now start 0 logins.now session).0) }
    ensures calls { IfOk result (λ ended. ended.calls ≤ 10_001) }
{
    for (i, login) in logins.iter().enumerate() {
        session = ending_if(rt, session, caller, start, i as u64, login)?;
    }
    Ok(session)
}

/// Validates the token of each login.
fn checks<N: First, R: Wait>(
    alloc: Global,
    rt: &R,
    mut session: Session<N>,
    caller: &Option<Text>,
    logins: &[Reply],
) -> Result<ListOf<Reply>, Memory>
    requires few { length logins.now ≤ DRILL_MEMBERS }
    requires calls { session.calls ≤ 10_001 }
    ensures { IfOk result (λ found. found ≡ (checks caller.now logins.now session).1) }
{
    let mut found = ListOf::new(alloc);
    for login in logins {
        let (next, check) = session.ask(rt, validate(), copied(caller)?, text_in(login)?)?;
        session = next;
        found.push(check)?;
    }
    Ok(found)
}

/// Makes all calls of a drill, of which the first is the login of its administrator, and answers its line.
pub(crate) fn play<N: First, R: Wait>(
    alloc: Global,
    rt: &R,
    session: Session<N>,
    start: u64,
    count: u32,
) -> Result<Text, Memory>
    requires start { start ≤ DRILL_START }
    requires most { count ≤ DRILL_MEMBERS }
    requires first { session.calls ≡ 0 }
    ensures { IfOk result (λ made. made ≡ (drill start count session).1) }
{
    let password = Text::of(alloc, ROOT)?;
    let command = log_in(alloc, root_id(), password, root_id())?;
    let (session, login) = session.ask(rt, command, None, None)?;
    let caller = text_in(&login)?;
    let (session, logins) = members(alloc, rt, session, &caller, start, count)?;
    let session = endings(rt, session, &caller, start, logins.as_slice())?;
    let found = checks(alloc, rt, session, &caller, logins.as_slice())?;
    line(alloc, start, count, logins.as_slice(), found.as_slice())
}
