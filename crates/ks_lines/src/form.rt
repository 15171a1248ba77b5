//! Faults of the form, the policy and the keys of an opening file.
ghost use Rattle.std.specs.Prelude.{◌≡◌, codes, IfOk, string_bytes};
ghost use Rattle.ks_lines.specs.FormLines.{at_path, begins, endpoint_wanted, ends, field_wanted, grant_wanted, has_stop, id_wanted, member_wanted, opening_line, policy_line, range_line, row_wanted, service_wanted, setting_wanted, shape_line, wanted, wanted_at};

use crate::spot::quoted;
use itoa::Buffer;
use ks_base::limits::OPENING_BYTES;
use ks_base::{Memory, ShapeFault, Text};
use ks_policy::PolicyFault;
use ks_setup::OpeningFault;
use ks_written::joined;
use std::alloc::Global;

const ID: &str = "an id of 1 to 64 of the characters 0-9 A-Z a-z _ -";

const ACTOR: &str = "an id, of a user or else of a group,";

const TARGET: &str = "an id, of a project or else of a domain, or else \"system\": true,";

const RECORD: &str = "a text pbkdf2_sha256$ROUNDS$SALT$DIGEST in place of a password";

const SERVICE_TEXT: &str = "a text of at most 255 bytes";

fn begins(path: &[u8], front: &[u8]) -> bool
    ensures { result ≡ begins path.now front.now }
{
    path.starts_with(front)
}

fn ends(path: &[u8], back: &[u8]) -> bool
    ensures { result ≡ ends path.now back.now }
{
    path.ends_with(back)
}

fn has_stop(path: &[u8]) -> bool
    ensures { result ≡ has_stop path.now }
{
    path.contains(&b'.')
}

/// What is wanted of an actor or a target of an assignment.
fn grant_wanted(path: &[u8]) -> &'static str
    ensures { result.now ≡ grant_wanted path.now }
{
    if ends(path, b".user") {
        return ACTOR;
    }
    if ends(path, b".group") {
        return ACTOR;
    }
    if ends(path, b".project") {
        return TARGET;
    }
    if ends(path, b".domain") {
        return TARGET;
    }
    if ends(path, b".system") {
        return "true, in place of a project or a domain,";
    }
    ID
}

fn id_wanted(path: &[u8]) -> &'static str
    ensures { result.now ≡ id_wanted path.now }
{
    if begins(path, b"assignments[") {
        return grant_wanted(path);
    }
    ID
}

/// What is wanted of a field that rows of more than one kind have.
fn row_wanted(path: &[u8]) -> &'static str
    ensures { result.now ≡ row_wanted path.now }
{
    if ends(path, b".name") {
        return "a text of 1 to 255 bytes";
    }
    if ends(path, b".description") {
        return "a text of at most 4096 bytes";
    }
    if ends(path, b".password") {
        return "a text of 1 to 4096 bytes";
    }
    if ends(path, b".password_record") {
        return RECORD;
    }
    if ends(path, b".enabled") {
        return "true or false";
    }
    if ends(path, b".inherited") {
        return "true or false, and not true on the system,";
    }
    id_wanted(path)
}

fn service_wanted(path: &[u8]) -> &'static str
    ensures { result.now ≡ service_wanted path.now }
{
    if ends(path, b".type") {
        return SERVICE_TEXT;
    }
    if ends(path, b".name") {
        return SERVICE_TEXT;
    }
    row_wanted(path)
}

fn endpoint_wanted(path: &[u8]) -> &'static str
    ensures { result.now ≡ endpoint_wanted path.now }
{
    if ends(path, b".interface") {
        return "the text \"public\", \"internal\" or \"admin\"";
    }
    if ends(path, b".url") {
        return "a text of 1 to 2048 bytes";
    }
    row_wanted(path)
}

/// What is wanted of a field of a row.
fn field_wanted(path: &[u8]) -> &'static str
    ensures { result.now ≡ field_wanted path.now }
{
    if begins(path, b"services[") {
        return service_wanted(path);
    }
    if begins(path, b"endpoints[") {
        return endpoint_wanted(path);
    }
    row_wanted(path)
}

fn setting_wanted(path: &[u8]) -> &'static str
    ensures { result.now ≡ setting_wanted path.now }
{
    if ends(path, b".life") {
        return "a whole number from 60 to 604800";
    }
    if ends(path, b".rounds") {
        return "a whole number from 1 to 100000";
    }
    if ends(path, b".max_active_keys") {
        return "a whole number from 2 to 32";
    }
    "a URL of at most 1024 visible characters that begins with http:// or https://"
}

/// What is wanted of the file, of its members and of their entries.
fn member_wanted(path: &[u8]) -> &'static str
    ensures { result.now ≡ member_wanted path.now }
{
    if path.is_empty() {
        return "an object";
    }
    if ends(path, b"settings") {
        return "an object";
    }
    if ends(path, b"keys") {
        return "the text \"folder\" or a list of 1 to 32 texts";
    }
    if begins(path, b"keys[") {
        return "a text";
    }
    if ends(path, b"]") {
        return "an object";
    }
    "a list"
}

#[tactic(auto, unfolding(crate::specs::FormLines::wanted))]
fn wanted(path: &[u8]) -> &'static str
    ensures { result.now ≡ wanted path.now }
{
    if begins(path, b"settings.") {
        return setting_wanted(path);
    }
    if has_stop(path) {
        return field_wanted(path);
    }
    member_wanted(path)
}

fn at_path(alloc: Global, path: &str, said: &str) -> Result<String, Memory>
    ensures { IfOk result (λ made. string_bytes made ≡ at_path path.now said.now) }
{
    if path.is_empty() {
        return joined(alloc, &[said]);
    }
    joined(alloc, &[path, ": ", said])
}

fn wanted_at(alloc: Global, path: &Text, fault: &'static str) -> Result<String, Memory>
    ensures { IfOk result (λ made. string_bytes made ≡ wanted_at path.now fault.now) }
{
    let said = joined(alloc, &[fault, "; ", wanted(path.as_slice()), " is wanted"])?;
    at_path(alloc, path.as_str(), said.as_str())
}

fn range_line(alloc: Global, path: &Text) -> Result<String, Memory>
    ensures { IfOk result (λ made. string_bytes made ≡ range_line path.now) }
{
    if path.as_slice().is_empty() {
        return joined(
            alloc,
            &["more than ", Buffer::new().format(OPENING_BYTES), " bytes"],
        );
    }
    wanted_at(alloc, path, "out of its limits")
}

#[tactic(auto, unfolding(crate::specs::FormLines::shape_line))]
pub(crate) fn shape_line(alloc: Global, fault: &ShapeFault) -> Result<String, Memory>
    ensures { IfOk result (λ made. string_bytes made ≡ shape_line fault.now) }
{
    match fault {
        ShapeFault::NotJson => joined(alloc, &["not a JSON text of at most 127 levels"]),
        ShapeFault::Missing(path) => wanted_at(alloc, path, "missing"),
        ShapeFault::Kind(path) => wanted_at(alloc, path, "of another type"),
        ShapeFault::Range(path) => range_line(alloc, path),
    }
}

#[tactic(auto, unfolding(crate::specs::FormLines::policy_line))]
fn policy_line(alloc: Global, fault: &PolicyFault) -> Result<String, Memory>
    ensures { IfOk result (λ made. string_bytes made ≡ policy_line fault.now) }
{
    match fault {
        PolicyFault::NotObject => {
            joined(alloc, &["policy: of another type; an object is wanted"])
        }
        PolicyFault::NotText(rule) => {
            let rule = quoted(alloc, rule.as_str())?;
            joined(
                alloc,
                &["policy: the rule ", rule.as_str(), " is not a text"],
            )
        }
        PolicyFault::Cycle(rule) => {
            let rule = quoted(alloc, rule.as_str())?;
            joined(
                alloc,
                &["policy: the rule ", rule.as_str(), " reaches itself"],
            )
        }
        PolicyFault::TooMany => joined(
            alloc,
            &["policy: more than 1024 rules, the default ones among them"],
        ),
        PolicyFault::Memory => joined(alloc, &["out of memory"]),
    }
}

#[tactic(auto, unfolding(crate::specs::FormLines::opening_line))]
pub(crate) fn opening_said(alloc: Global, fault: &OpeningFault) -> Result<String, Memory>
    ensures { IfOk result (λ made. string_bytes made ≡ opening_line fault.now) }
{
    match fault {
        OpeningFault::Shape(fault) => shape_line(alloc, fault),
        OpeningFault::Policy(fault) => policy_line(alloc, fault),
        OpeningFault::BadKey(path) => {
            joined(alloc, &[path.as_str(), ": not the text of a Fernet key"])
        }
        OpeningFault::Random => joined(alloc, &["no random bytes"]),
        OpeningFault::Memory => joined(alloc, &["out of memory"]),
    }
}
