//! What replies tell.
ghost use Rattle.std.specs.Prelude.{◌≡◌, IfOk, count_by, option_copied, sum_by};
ghost use Rattle.ks_drill.specs.Drill.{id_in, id_of_row, is_made, is_unknown, is_valid, line, roles_in, roles_of, text_in, token_in};

use crate::words::id_of;
use itoa::Buffer;
use ks_base::{Id, Memory, Text};
use ks_machine::{BodyOut, Cause, Reply, Row, TokenOut};
use std::alloc::Global;

/// The id of the project or the user that the row is; else one that nothing has.
fn id_of_row(row: &Row) -> Id
    ensures { result ≡ id_of_row row.now }
{
    match row {
        Row::Project(project) => project.id,
        Row::User(user) => user.id,
        _ => id_of(b"none"),
    }
}

/// The id of the project or the user that a reply tells of; else one that nothing has.
#[tactic(auto, unfolding(crate::specs::Drill::id_in))]
pub(crate) fn id_in(reply: &Reply) -> Id
    ensures { result ≡ id_in reply.now }
{
    match reply {
        Reply::Ok(BodyOut::One(row, _)) => id_of_row(row.get()),
        _ => id_of(b"none"),
    }
}

#[tactic(auto, unfolding(crate::specs::Drill::token_in))]
fn token_in(reply: &Reply) -> Option<&TokenOut>
    ensures { option_copied result ≡ token_in reply.now }
{
    match reply {
        Reply::Ok(BodyOut::Token(token)) => Some(token.get()),
        _ => None,
    }
}

/// The text of the token that a reply tells of.
#[tactic(auto, unfolding(crate::specs::Drill::text_in))]
pub(crate) fn text_in(reply: &Reply) -> Result<Option<Text>, Memory>
    ensures { IfOk result (λ text. text ≡ text_in reply.now) }
{
    match token_in(reply) {
        Some(token) => Ok(Some(token.text.copy()?)),
        None => Ok(None),
    }
}

/// Whether a token was made.
#[tactic(auto, unfolding(crate::specs::Drill::is_made))]
fn is_made(reply: &Reply) -> bool
    ensures { result ≡ is_made reply.now }
{
    match token_in(reply) {
        Some(token) => token.made,
        None => false,
    }
}

/// Whether a token is shown that was made before.
#[tactic(auto, unfolding(crate::specs::Drill::is_valid))]
fn is_valid(reply: &Reply) -> bool
    ensures { result ≡ is_valid reply.now }
{
    match token_in(reply) {
        Some(token) => !token.made,
        None => false,
    }
}

/// Whether what is asked about is not there.
#[tactic(auto, unfolding(crate::specs::Drill::is_unknown))]
fn is_unknown(reply: &Reply) -> bool
    ensures { result ≡ is_unknown reply.now }
{
    matches!(
        reply,
        Reply::Refused(Cause::Absent(_, _) | Cause::SubjectToken(_) | Cause::NoRoute)
    )
}

#[tactic(auto, unfolding(crate::specs::Drill::roles_of))]
fn roles_of(token: &TokenOut) -> usize
    ensures { result ≡ roles_of token.now }
{
    if token.made {
        return 0;
    }
    match &token.roles {
        Some(roles) => roles.as_slice().len(),
        None => 0,
    }
}

#[tactic(auto, unfolding(crate::specs::Drill::roles_in))]
fn roles_in(reply: &Reply) -> usize
    ensures { result ≡ roles_in reply.now }
{
    match token_in(reply) {
        Some(token) => roles_of(token),
        None => 0,
    }
}

/// How many roles the replies tell of. They all stand in memory, so that a count beyond its type is want of memory.
fn roles(replies: &[Reply]) -> Result<usize, Memory>
    ensures { IfOk result (λ count. count ≡ sum_by roles_in replies.now) }
{
    let mut count = 0usize;
    for reply in replies {
        let Some(more) = count.checked_add(roles_in(reply)) else {
            return Err(Memory);
        };
        count = more;
    }
    Ok(count)
}

fn made(replies: &[Reply]) -> usize
    ensures { result ≡ count_by is_made replies.now }
{
    replies.iter().filter(|reply| is_made(reply)).count()
}

fn valid(replies: &[Reply]) -> usize
    ensures { result ≡ count_by is_valid replies.now }
{
    replies.iter().filter(|reply| is_valid(reply)).count()
}

fn unknown(replies: &[Reply]) -> usize
    ensures { result ≡ count_by is_unknown replies.now }
{
    replies.iter().filter(|reply| is_unknown(reply)).count()
}

/// The line of a drill, from the replies to its logins and to its validations.
#[tactic(auto, unfolding(crate::specs::Drill::line))]
pub(crate) fn line(
    alloc: Global,
    start: u64,
    count: u32,
    logins: &[Reply],
    found: &[Reply],
) -> Result<Text, Memory>
    ensures { IfOk result (λ made. made ≡ line start count logins.now found.now) }
{
    let said = [
        "drill ",
        Buffer::new().format(start),
        " ",
        Buffer::new().format(count),
        " logins ",
        Buffer::new().format(made(logins)),
        " valid ",
        Buffer::new().format(valid(found)),
        " refused ",
        Buffer::new().format(unknown(found)),
        " roles ",
        Buffer::new().format(roles(found)?),
        "\n",
    ]
    .concat(alloc)?;
    Text::of(alloc, said.as_str())
}
