//! The fields of a payload, each read off the front of the bytes.
ghost use Rattle.std.specs.Prelude.{◌≡◌, MatchOption, option_map};
ghost use Rattle.ks_payload.specs.Payloads.{has_domain, has_project, has_trust, has_credential};
ghost use Rattle.ks_payload.specs.Readings.{take_number, take_bytes, take_hex_id, take_plain_id, take_id, take_if, last_kind, take_head, take_scope, take_expiry, take_audits, payload_of};

use crate::Payload;
use crate::hex_id::{is_hex_id, unpacked};
use crate::payload::VERSION;
use ks_base::Id;
use ks_base::limits::LAST_SECOND;

const DOMAIN: u8 = 1;

const PROJECT: u8 = 2;

const TRUST: u8 = 3;

const CREDENTIAL: u8 = 5;

/// The first version, whose last kind is that of a trust.
const OLD_VERSION: u8 = 1;

const MOST_METHODS: u8 = 15;

/// The ids that a payload of some kind is scoped to.
#[derive(Clone, Copy)]
struct Scope {
    domain: Option<Id>,
    project: Option<Id>,
    trust: Option<Id>,
    credential: Option<Id>,
}

/// The token's own audit id, and that of the first token of its chain.
#[derive(Clone, Copy)]
struct Audits<'a> {
    audit: &'a [u8; 16],
    chain: Option<&'a [u8; 16]>,
}

/// A byte from the least to the most.
fn take_number(bytes: &[u8], least: u8, most: u8) -> Option<(u8, &[u8])>
    ensures { MatchOption result (take_number least most bytes.now ≡ None)
        (λ found. take_number least most bytes.now ≡ Some (found.0, found.1.now)) }
{
    let Some((first, rest)) = bytes.split_first() else {
        return None;
    };
    if *first < least || *first > most {
        return None;
    }
    Some((*first, rest))
}

fn take_sixteen(bytes: &[u8]) -> Option<(&[u8; 16], &[u8])>
    ensures { MatchOption result (take_bytes 16 bytes.now ≡ None)
        (λ found. take_bytes 16 bytes.now ≡ Some (found.0.now, found.1.now)) }
{
    let Some((front, rest)) = bytes.split_first_chunk::<16>() else {
        return None;
    };
    Some((front, rest))
}

#[tactic(auto, unfolding(crate::specs::Readings::take_hex_id))]
fn take_hex_id(bytes: &[u8]) -> Option<(Id, &[u8])>
    ensures { MatchOption result (take_hex_id bytes.now ≡ None)
        (λ found. take_hex_id bytes.now ≡ Some (found.0, found.1.now)) }
{
    let Some((packed, rest)) = take_sixteen(bytes) else {
        return None;
    };
    Some((unpacked(packed), rest))
}

/// An id of this length that is not 32 lower hex digits.
fn take_plain_id(len: usize, bytes: &[u8]) -> Option<(Id, &[u8])>
    ensures { MatchOption result (take_plain_id len bytes.now ≡ None)
        (λ found. take_plain_id len bytes.now ≡ Some (found.0, found.1.now)) }
{
    let Some((text, rest)) = bytes.split_at_checked(len) else {
        return None;
    };
    if is_hex_id(text) {
        return None;
    }
    let Ok(id) = Id::read(text) else {
        return None;
    };
    Some((id, rest))
}

#[tactic(auto, unfolding(crate::specs::Readings::take_id))]
fn take_id(bytes: &[u8]) -> Option<(Id, &[u8])>
    ensures { MatchOption result (take_id bytes.now ≡ None)
        (λ found. take_id bytes.now ≡ Some (found.0, found.1.now)) }
{
    let Some((len, rest)) = bytes.split_first() else {
        return None;
    };
    if *len == 0 {
        return take_hex_id(rest);
    }
    take_plain_id(usize::from(*len), rest)
}

fn take_id_if(there: bool, bytes: &[u8]) -> Option<(Option<Id>, &[u8])>
    ensures { MatchOption result (take_if there take_id bytes.now ≡ None)
        (λ found. take_if there take_id bytes.now ≡ Some (found.0, found.1.now)) }
{
    if !there {
        return Some((None, bytes));
    }
    let Some((id, rest)) = take_id(bytes) else {
        return None;
    };
    Some((Some(id), rest))
}

fn take_sixteen_if(there: bool, bytes: &[u8]) -> Option<(Option<&[u8; 16]>, &[u8])>
    ensures { MatchOption result (take_if there (take_bytes 16) bytes.now ≡ None)
        (λ found. take_if there (take_bytes 16) bytes.now ≡ Some (option_map (λ id. id.now) found.0, found.1.now)) }
{
    if !there {
        return Some((None, bytes));
    }
    let Some((id, rest)) = take_sixteen(bytes) else {
        return None;
    };
    Some((Some(id), rest))
}

fn last_kind(version: u8) -> u8
    ensures { result ≡ last_kind version }
{
    if version == OLD_VERSION {
        TRUST
    } else {
        CREDENTIAL
    }
}

/// The kind and the methods, behind the version.
#[tactic(auto, unfolding(crate::specs::Readings::take_head))]
fn take_head(bytes: &[u8]) -> Option<((u8, u8), &[u8])>
    ensures { MatchOption result (take_head bytes.now ≡ None)
        (λ found. take_head bytes.now ≡ Some (found.0, found.1.now)) }
{
    let Some((version, rest)) = take_number(bytes, OLD_VERSION, VERSION) else {
        return None;
    };
    let Some((kind, rest)) = take_number(rest, 0, last_kind(version)) else {
        return None;
    };
    let Some((methods, rest)) = take_number(rest, 1, MOST_METHODS) else {
        return None;
    };
    Some(((kind, methods), rest))
}

#[tactic(auto, unfolding(crate::specs::Readings::take_scope))]
fn take_scope(kind: u8, bytes: &[u8]) -> Option<(Scope, &[u8])>
    ensures { MatchOption result (take_scope kind bytes.now ≡ None)
        (λ found. take_scope kind bytes.now ≡ Some ((found.0.domain, found.0.project, found.0.trust, found.0.credential), found.1.now)) }
{
    let Some((domain, rest)) = take_id_if(kind == DOMAIN, bytes) else {
        return None;
    };
    let has_project = kind == PROJECT || kind == TRUST || kind == CREDENTIAL;
    let Some((project, rest)) = take_id_if(has_project, rest) else {
        return None;
    };
    let Some((trust, rest)) = take_id_if(kind == TRUST, rest) else {
        return None;
    };
    let Some((credential, rest)) = take_id_if(kind == CREDENTIAL, rest) else {
        return None;
    };
    Some((
        Scope {
            domain,
            project,
            trust,
            credential,
        },
        rest,
    ))
}

fn take_expiry(bytes: &[u8]) -> Option<(u64, &[u8])>
    ensures { MatchOption result (take_expiry bytes.now ≡ None)
        (λ found. take_expiry bytes.now ≡ Some (found.0, found.1.now)) }
{
    let Some((field, rest)) = bytes.split_first_chunk::<8>() else {
        return None;
    };
    let expires = u64::from_be_bytes(*field);
    if expires > LAST_SECOND {
        return None;
    }
    Some((expires, rest))
}

#[tactic(auto, unfolding(crate::specs::Readings::take_audits))]
fn take_audits(bytes: &[u8]) -> Option<(Audits<'_>, &[u8])>
    ensures { MatchOption result (take_audits bytes.now ≡ None)
        (λ found. take_audits bytes.now ≡ Some ((found.0.audit.now, option_map (λ id. id.now) found.0.chain), found.1.now)) }
{
    let Some((count, rest)) = take_number(bytes, 1, 2) else {
        return None;
    };
    let Some((audit, rest)) = take_sixteen(rest) else {
        return None;
    };
    let Some((chain, rest)) = take_sixteen_if(count == 2, rest) else {
        return None;
    };
    Some((Audits { audit, chain }, rest))
}

/// The payload that all of the bytes spell.
#[tactic(auto, unfolding(crate::specs::Readings::payload_of, crate::specs::Readings::take_payload))]
pub fn read_payload(bytes: &[u8]) -> Option<Payload>
    ensures { result ≡ payload_of bytes.now }
{
    let Some(((kind, methods), rest)) = take_head(bytes) else {
        return None;
    };
    let Some((user, rest)) = take_id(rest) else {
        return None;
    };
    let Some((scope, rest)) = take_scope(kind, rest) else {
        return None;
    };
    let Some((expires, rest)) = take_expiry(rest) else {
        return None;
    };
    let Some((audits, rest)) = take_audits(rest) else {
        return None;
    };
    if !rest.is_empty() {
        return None;
    }
    let audit = *audits.audit;
    let chain = audits.chain.copied();
    Some(Payload {
        kind,
        methods,
        user,
        domain: scope.domain,
        project: scope.project,
        trust: scope.trust,
        expires,
        audit,
        chain,
        credential: scope.credential,
    })
}
