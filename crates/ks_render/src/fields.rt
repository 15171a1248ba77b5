ghost use Rattle.std.specs.Prelude.{◌≡◌, [], ◌∷◌, ◌++◌, true, codes, IfOk, OnOk, string_bytes};
ghost use Rattle.ks_render.specs.Answers.{allow_fields, body_fields, cause_fields, challenge_fields, close_fields, fields_of, first_fields, granted_fields, method_list, name_of, own_fields, told_fields, token_fields, vary_fields};

use ks_base::{Memory, Method, Text};
use ks_http::{ResponseFields, Wording};
use ks_machine::{BodyOut, Cause, Reply};
use std::alloc::Global;

/// Room for the fields of any response.
const FIELDS: usize = 4;

/// Room for the names of all methods, so that their text is one piece of memory.
const METHODS_ROOM: usize = 48;

/// Room for what stands round the URL in a challenge.
const CHALLENGE_ROOM: usize = 18;

/// No fields yet, with room for those that a response gets.
fn no_fields(alloc: Global) -> Result<ResponseFields, Memory>
    ensures { IfOk result (λ made. made ≡ []) }
{
    Ok(ResponseFields::from_vec(Vec::with_capacity(alloc, FIELDS)?))
}

fn push(fields: &mut ResponseFields, name: &'static str, value: Wording) -> Result<(), Memory>
    ensures { OnOk result (fields.new ≡ fields.old ++ (name.now, value) ∷ []) }
{
    fields.push((Wording::fixed(name), value))
}

#[tactic(auto, unfolding(crate::specs::Answers::name_of))]
fn name_of(method: Method) -> &'static str
    ensures { result.now ≡ name_of method }
{
    match method {
        Method::Get => "GET",
        Method::Head => "HEAD",
        Method::Post => "POST",
        Method::Patch => "PATCH",
        Method::Put => "PUT",
        Method::Delete => "DELETE",
        Method::Other => "",
    }
}

fn method_list(alloc: Global, methods: &[Method]) -> Result<String, Memory>
    ensures { IfOk result (λ made. string_bytes made ≡ method_list methods.now) }
{
    let mut made = String::with_capacity(alloc, METHODS_ROOM)?;
    let Some((first, others)) = methods.split_first() else {
        return Ok(made);
    };
    made.push_str(name_of(*first))?;
    for method in others {
        made.push_str(", ")?;
        made.push_str(name_of(*method))?;
    }
    Ok(made)
}

/// Begins the fields of a response that has a body.
#[tactic(auto, unfolding(crate::specs::Answers::body_fields))]
fn body_fields(alloc: Global) -> Result<ResponseFields, Memory>
    ensures { IfOk result (λ made. made ≡ body_fields) }
{
    let mut fields = no_fields(alloc)?;
    push(
        &mut fields,
        "Content-Type",
        Wording::fixed("application/json"),
    )?;
    push(&mut fields, "Vary", Wording::fixed("X-Auth-Token"))?;
    Ok(fields)
}

/// Begins the fields of a response that has none.
#[tactic(auto, unfolding(crate::specs::Answers::vary_fields))]
fn vary_fields(alloc: Global) -> Result<ResponseFields, Memory>
    ensures { IfOk result (λ made. made ≡ vary_fields) }
{
    let mut fields = no_fields(alloc)?;
    push(&mut fields, "Vary", Wording::fixed("X-Auth-Token"))?;
    Ok(fields)
}

fn granted_fields(alloc: Global, granted: &BodyOut) -> Result<ResponseFields, Memory>
    ensures { IfOk result (λ made. made ≡ granted_fields granted.now) }
{
    match granted {
        BodyOut::Nothing => vary_fields(alloc),
        BodyOut::Version | BodyOut::Versions => body_fields(alloc),
        BodyOut::Token(_) => body_fields(alloc),
        BodyOut::One(_, _) => body_fields(alloc),
        BodyOut::Many(_, _, _) => body_fields(alloc),
        BodyOut::Inference(_, _, _) => body_fields(alloc),
        BodyOut::Inferences(_, _) => body_fields(alloc),
        BodyOut::Grants(_, _) => body_fields(alloc),
        BodyOut::Assignments(_, _) => body_fields(alloc),
        BodyOut::Trusts(_, _) => body_fields(alloc),
        BodyOut::TrustRoles(_, _) => body_fields(alloc),
        BodyOut::Events(_, _) => body_fields(alloc),
        BodyOut::Keys(_, _) => body_fields(alloc),
        BodyOut::Catalog(_, _) => body_fields(alloc),
        BodyOut::AppCredMade(_, _, _) => body_fields(alloc),
        BodyOut::AppCreds(_, _) => body_fields(alloc),
        BodyOut::Secrets(_, _) => body_fields(alloc),
    }
}

fn first_fields(alloc: Global, reply: &Reply) -> Result<ResponseFields, Memory>
    ensures { IfOk result (λ made. made ≡ first_fields reply.now) }
{
    match reply {
        Reply::Ok(granted) => granted_fields(alloc, granted),
        Reply::Refused(_) => body_fields(alloc),
    }
}

/// What tells a client where to authenticate.
fn challenge(alloc: Global, url: &Text) -> Result<String, Memory>
    ensures { IfOk result (λ made. string_bytes made ≡ codes "Keystone uri=\"" ++ (url.now ++ codes "/v3\"")) }
{
    let mut made = String::with_capacity(alloc, url.as_slice().len() + CHALLENGE_ROOM)?;
    made.push_str("Keystone uri=\"")?;
    made.push_str(url.as_str())?;
    made.push_str("/v3\"")?;
    Ok(made)
}

#[tactic(auto, unfolding(crate::specs::Answers::challenge_fields))]
fn push_challenge(fields: &mut ResponseFields, alloc: Global, url: &Text) -> Result<(), Memory>
    ensures { OnOk result (fields.new ≡ fields.old ++ challenge_fields url.now) }
{
    let challenge = challenge(alloc, url)?;
    push(fields, "WWW-Authenticate", Wording::own(challenge))
}

#[tactic(auto, unfolding(crate::specs::Answers::token_fields))]
fn push_token(fields: &mut ResponseFields, alloc: Global, text: &Text) -> Result<(), Memory>
    ensures { OnOk result (fields.new ≡ fields.old ++ token_fields text.now) }
{
    let own = String::from_str(alloc, text.as_str())?;
    push(fields, "X-Subject-Token", Wording::own(own))
}

#[tactic(auto, unfolding(crate::specs::Answers::allow_fields))]
fn push_allow(fields: &mut ResponseFields, alloc: Global, methods: &[Method]) -> Result<(), Memory>
    ensures { OnOk result (fields.new ≡ fields.old ++ allow_fields methods.now) }
{
    let methods = method_list(alloc, methods)?;
    push(fields, "Allow", Wording::own(methods))
}

fn push_of_cause(
    fields: &mut ResponseFields,
    alloc: Global,
    cause: &Cause,
    url: &Text,
) -> Result<(), Memory>
    ensures { OnOk result (fields.new ≡ fields.old ++ cause_fields cause.now url.now) }
{
    match cause {
        Cause::Shape(_) => Ok(()),
        Cause::NoToken => push_challenge(fields, alloc, url),
        Cause::CallerToken(_) => push_challenge(fields, alloc, url),
        Cause::Credentials => push_challenge(fields, alloc, url),
        Cause::ScopeRefused(_) => push_challenge(fields, alloc, url),
        Cause::Rule(_) => Ok(()),
        Cause::Trust(_) => Ok(()),
        Cause::Tree(_) => Ok(()),
        Cause::Prohibited => Ok(()),
        Cause::Immutable(_) => Ok(()),
        Cause::TrustToken => Ok(()),
        Cause::KeyMode => Ok(()),
        Cause::Absent(_, _) => Ok(()),
        Cause::SubjectToken(_) => Ok(()),
        Cause::NoRoute => Ok(()),
        Cause::NoMethod(methods) => push_allow(fields, alloc, methods.as_slice()),
        Cause::NameTaken(_) => Ok(()),
        Cause::Keys(_) => Ok(()),
        Cause::Full(_) => Ok(()),
        Cause::IdTaken(_) => Ok(()),
        Cause::Random => Ok(()),
        Cause::KeyDir => Ok(()),
        Cause::Memory => Ok(()),
    }
}

fn push_told(fields: &mut ResponseFields, alloc: Global, granted: &BodyOut) -> Result<(), Memory>
    ensures { OnOk result (fields.new ≡ fields.old ++ told_fields granted.now) }
{
    match granted {
        BodyOut::Nothing => Ok(()),
        BodyOut::Version | BodyOut::Versions => Ok(()),
        BodyOut::Token(told) => push_token(fields, alloc, &told.get().text),
        BodyOut::One(_, _) => Ok(()),
        BodyOut::Many(_, _, _) => Ok(()),
        BodyOut::Inference(_, _, _) => Ok(()),
        BodyOut::Inferences(_, _) => Ok(()),
        BodyOut::Grants(_, _) => Ok(()),
        BodyOut::Assignments(_, _) => Ok(()),
        BodyOut::Trusts(_, _) => Ok(()),
        BodyOut::TrustRoles(_, _) => Ok(()),
        BodyOut::Events(_, _) => Ok(()),
        BodyOut::Keys(_, _) => Ok(()),
        BodyOut::Catalog(_, _) => Ok(()),
        BodyOut::AppCredMade(_, _, _) => Ok(()),
        BodyOut::AppCreds(_, _) => Ok(()),
        BodyOut::Secrets(_, _) => Ok(()),
    }
}

fn push_own(
    fields: &mut ResponseFields,
    alloc: Global,
    reply: &Reply,
    url: &Text,
) -> Result<(), Memory>
    ensures { OnOk result (fields.new ≡ fields.old ++ own_fields reply.now url.now) }
{
    match reply {
        Reply::Ok(granted) => push_told(fields, alloc, granted),
        Reply::Refused(cause) => push_of_cause(fields, alloc, cause, url),
    }
}

#[tactic(auto, unfolding(crate::specs::Answers::close_fields))]
fn push_close(fields: &mut ResponseFields, close: bool) -> Result<(), Memory>
    ensures { OnOk result (fields.new ≡ fields.old ++ close_fields close) }
{
    if close {
        push(fields, "Connection", Wording::fixed("close"))
    } else {
        Ok(())
    }
}

/// The fields of a reply's response behind the length of the body, of a server at the URL.
pub fn fields_of(
    alloc: Global,
    reply: &Reply,
    url: &Text,
    close: bool,
) -> Result<ResponseFields, Memory>
    ensures { IfOk result (λ made. made ≡ fields_of reply.now url.now close) }
{
    let mut fields = first_fields(alloc, reply)?;
    push_own(&mut fields, alloc, reply, url)?;
    push_close(&mut fields, close)?;
    Ok(fields)
}

/// The fields of the response to bytes that are no request.
pub fn bad_fields(alloc: Global) -> Result<ResponseFields, Memory>
    ensures { IfOk result (λ made. made ≡ body_fields ++ close_fields true) }
{
    let mut fields = body_fields(alloc)?;
    push_close(&mut fields, true)?;
    Ok(fields)
}
