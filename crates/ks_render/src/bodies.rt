ghost use Rattle.std.specs.Prelude.{◌≡◌, IfOk, OnOk, option_to_list};
ghost use Rattle.json.specs.Lex.{tokens};
ghost use Rattle.serde_json.specs.Written.{compact_text};
ghost use Rattle.ks_machine.specs.Told.{IsBodyTellable, IsTellable};
ghost use Rattle.ks_render.specs.Bodies.{body_of, granted_body, text_of, tokens_of};
ghost use Rattle.ks_render.specs.Errors.{bad_body};
ghost use Rattle.ks_render.specs.steps.Writing.{Lists};

use crate::catalog::{catalog_size, write_catalog_then_links};
use crate::credentials::write_app_cred_made;
use crate::errors::{write_bad, write_refused};
use crate::listings::{
    write_inference, write_inferences, write_keys, write_links_then_rows, write_many,
    write_rows_then_links,
};
use crate::rows::write_one;
use crate::tokens::write_token;
use crate::version::{write_version, write_versions};
use json::Writer;
use ks_base::{Bytes, Memory, Text};
use ks_http::HttpCause;
use ks_machine::{BodyOut, Reply, TokenOut};
use std::alloc::{AllocError, Global};

/// Room for a body without a list.
const ROOM: usize = 512;

/// Room for the texts that are made on the way, of which a link with an id is the longest, under most URLs.
const LINK_ROOM: usize = 256;

/// Room for most bodies with a list of this length, so that their text seldom moves while it grows.
fn room_for(count: usize) -> usize {
    ROOM + count.min(4096) * 256
}

fn token_room(told: &TokenOut) -> usize {
    let roles = match &told.roles {
        Some(roles) => roles.as_slice().len(),
        None => 0,
    };
    let offers = match &told.catalog {
        Some(catalog) => catalog_size(catalog),
        None => 0,
    };
    room_for(roles.saturating_add(offers))
}

/// Room for most bodies of what is told.
fn granted_room(granted: &BodyOut) -> usize {
    match granted {
        BodyOut::Nothing => 0,
        BodyOut::Version | BodyOut::Versions => ROOM,
        BodyOut::Token(told) => token_room(told.get()),
        BodyOut::One(_, _) => ROOM,
        BodyOut::Many(_, rows, _) => room_for(rows.as_slice().len()),
        BodyOut::Inference(_, _, _) => ROOM,
        BodyOut::Inferences(_, implied) => room_for(implied.as_slice().len()),
        BodyOut::Grants(roles, _) => room_for(roles.as_slice().len()),
        BodyOut::Assignments(grants, _) => room_for(grants.as_slice().len()),
        BodyOut::Trusts(rows, _) => room_for(rows.as_slice().len()),
        BodyOut::TrustRoles(roles, _) => room_for(roles.as_slice().len()),
        BodyOut::Events(events, _) => room_for(events.as_slice().len()),
        BodyOut::Keys(_, _) => ROOM,
        BodyOut::Catalog(catalog, _) => room_for(catalog_size(catalog)),
        BodyOut::AppCredMade(_, roles, _) => room_for(roles.as_slice().len()),
        BodyOut::AppCreds(rows, _) => room_for(rows.as_slice().len()),
        BodyOut::Secrets(rows, _) => room_for(rows.as_slice().len()),
    }
}

fn room(reply: &Reply) -> usize {
    match reply {
        Reply::Ok(granted) => granted_room(granted),
        Reply::Refused(_) => ROOM,
    }
}

/// Writes what is told by an answer that grants a command. `link` is room for texts.
fn write_granted(
    out: &mut Writer,
    granted: &BodyOut,
    url: &Text,
    link: &mut String,
) -> Result<(), AllocError>
    requires { IsBodyTellable granted.now }
    ensures { OnOk result (Lists out.old out.new (option_to_list (granted_body granted.now url.now))) }
{
    match granted {
        BodyOut::Nothing => Ok(()),
        BodyOut::Version => write_version(out, url, link),
        BodyOut::Versions => write_versions(out, url, link),
        BodyOut::Token(told) => write_token(out, told.get(), url, link),
        BodyOut::One(row, _) => write_one(out, row.get(), url, link),
        BodyOut::Many(kind, rows, path) => { write_many(out, *kind, rows, url, path, link) }
        BodyOut::Inference(prior, implied, _) => {
            write_inference(out, prior.get(), implied.get())
        }
        BodyOut::Inferences(prior, implied) => { write_inferences(out, prior, implied, url, link) }
        BodyOut::Grants(roles, path) => {
            write_links_then_rows(out, "roles", roles, url, path, link)
        }
        BodyOut::Assignments(grants, path) => {
            write_links_then_rows(out, "role_assignments", grants, url, path, link)
        }
        BodyOut::Trusts(rows, path) => {
            write_links_then_rows(out, "trusts", rows, url, path, link)
        }
        BodyOut::TrustRoles(roles, path) => {
            write_links_then_rows(out, "roles", roles, url, path, link)
        }
        BodyOut::Events(events, path) => {
            write_rows_then_links(out, "events", events, url, path, link)
        }
        BodyOut::Keys(held, primary) => write_keys(out, held, *primary, url, link),
        BodyOut::Catalog(catalog, path) => write_catalog_then_links(out, catalog, url, path, link),
        BodyOut::AppCredMade(cred, roles, secret) => {
            write_app_cred_made(out, cred.get(), roles, secret, url, link)
        }
        BodyOut::AppCreds(rows, path) => {
            write_rows_then_links(out, "application_credentials", rows, url, path, link)
        }
        BodyOut::Secrets(rows, path) => {
            write_rows_then_links(out, "credentials", rows, url, path, link)
        }
    }
}

fn write_body(
    out: &mut Writer,
    reply: &Reply,
    url: &Text,
    link: &mut String,
) -> Result<(), AllocError>
    requires { IsTellable reply.now }
    ensures { OnOk result (Lists out.old out.new (option_to_list (body_of reply.now url.now))) }
{
    match reply {
        Reply::Ok(granted) => write_granted(out, granted, url, link),
        Reply::Refused(cause) => write_refused(out, cause, link),
    }
}

/// The body of a reply of the server at the URL.
pub fn body_text(alloc: Global, reply: &Reply, url: &Text) -> Result<Bytes, Memory>
    requires { IsTellable reply.now }
    ensures text { IfOk result (λ made. made ≡ text_of (body_of reply.now url.now)) }
    ensures reads_back { IfOk result (λ made. tokens made ≡ tokens_of (body_of reply.now url.now)) }
{
    let room = room(reply);
    let mut out = Writer::new(Vec::with_capacity(alloc, room)?);
    // Where there is no body, no text is made either.
    let mut link = String::with_capacity(alloc, LINK_ROOM.min(room))?;
    write_body(&mut out, reply, url, &mut link)?;
    Ok(Bytes::from_vec(out.into_inner()))
}

/// The body of the response to bytes that are no request.
pub fn bad_body_text(alloc: Global, cause: &HttpCause) -> Result<Bytes, Memory>
    ensures { IfOk result (λ made. made ≡ compact_text (bad_body cause.now)) }
{
    let mut out = Writer::new(Vec::with_capacity(alloc, ROOM)?);
    write_bad(&mut out, cause)?;
    Ok(Bytes::from_vec(out.into_inner()))
}
