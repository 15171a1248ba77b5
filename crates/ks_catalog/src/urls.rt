//! URLs with places for the id of a project.
ghost use Rattle.std.specs.Prelude.{◌≡◌, ◌≤◌, ◌++◌, [], None, Some, if◌then◌else◌, length, string_bytes, IfNone, IfOk, IfSome, OnOk};
ghost use Rattle.ks_catalog.specs.Urls.{filled, filled_url, name_length, place_length};
ghost use Rattle.ks_catalog.specs.steps.Places.{IsFirstPlace, IsPlain};

use crate::offers::EndpointOut;
use ks_base::{Id, Text};
use std::alloc::AllocError;
use std::mem;

/// How many bytes of those behind a `$` or `%` belong to a place; none, where there is no place.
#[tactic(auto, unfolding(crate::specs::Urls::name_length))]
fn name_length(bytes: &[u8]) -> Option<usize>
    ensures name { result ≡ name_length bytes.now }
    ensures within { IfSome result (λ n. n ≤ length bytes.now) }
{
    if bytes.starts_with(b"(project_id)s".as_slice()) {
        return Some(13);
    }
    if bytes.starts_with(b"(tenant_id)s".as_slice()) {
        return Some(12);
    }
    None
}

/// The same, where the byte before them may be any.
fn place_length(byte: u8, bytes: &[u8]) -> Option<usize>
    ensures place { result ≡ place_length byte bytes.now }
    ensures within { IfSome result (λ n. n ≤ length bytes.now) }
{
    if byte == b'$' || byte == b'%' {
        name_length(bytes)
    } else {
        None
    }
}

/// Where the first place of a URL begins, and where it ends.
fn first_place(url: &[u8]) -> Option<(usize, usize)>
    ensures some { IfSome result (λ place. IsFirstPlace place url.now) }
    ensures none { IfNone result (IsPlain url.now) }
{
    for at in 0..url.len() {
        if let Some(length) = place_length(url[at], &url[at + 1..]) {
            return Some((at, at + 1 + length));
        }
    }
    None
}

/// Appends the URL with the project's id in each place.
fn push_filled(out: &mut Vec<u8>, url: &[u8], project: &[u8]) -> Result<(), AllocError>
    ensures { OnOk result (out.new.items ≡ out.old.items ++ filled project.now url.now) }
{
    let mut rest = url;
    'places: while let Some((start, end)) = first_place(rest) {
        out.extend_from_slice(&rest[..start])?;
        out.extend_from_slice(project)?;
        rest = &rest[end..];
    }
    out.extend_from_slice(rest)?;
    Ok(())
}

/// Makes a text of these bytes, in the room of another.
fn cleared(text: &mut String) -> Vec<u8>
    ensures { result.items ≡ [] }
{
    let empty = String::new(*text.allocator());
    let mut bytes = mem::replace(text, empty).into_bytes();
    bytes.clear();
    bytes
}

/// Makes the URL with the project's id in each place, in place of what the text held.
fn fill_in(text: &mut String, url: &Text, project: &Id) -> Result<(), AllocError>
    ensures { OnOk result (string_bytes text.new ≡ filled project.now url.now) }
{
    let mut bytes = cleared(text);
    push_filled(&mut bytes, url.as_slice(), project.as_slice())?;
    match String::from_utf8(bytes) {
        Ok(filled) => *text = filled,
        Err(_) => unreachable!(),
    }
    Ok(())
}

/// Makes the URL as it stands, in place of what the text held, where no place stands in it. Says whether that is so.
#[tactic(auto, unfolding(crate::specs::Urls::filled_url))]
fn fill_without(text: &mut String, url: &Text) -> Result<bool, AllocError>
    ensures { IfOk result (λ fills. filled_url None url.now ≡ (if fills then Some (string_bytes text.new) else None)) }
{
    if first_place(url.as_slice()).is_some() {
        return Ok(false);
    }
    text.clear();
    text.push_str(url.as_str())?;
    Ok(true)
}

impl EndpointOut {
    /// Makes the URL with the project's id in each place, in place of what the text held. Says whether there is one: without a
    /// project none fills in which a place stands.
    #[tactic(auto, unfolding(crate::specs::Urls::filled_url))]
    pub fn fill(&self, project: &Option<Id>, text: &mut String) -> Result<bool, AllocError>
        ensures { IfOk result (λ fills. filled_url project.now self.now.url ≡ (if fills then Some (string_bytes text.new) else None)) }
    {
        match project {
            Some(id) => {
                fill_in(text, &self.url, id)?;
                Ok(true)
            }
            None => fill_without(text, &self.url),
        }
    }
}
