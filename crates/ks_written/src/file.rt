ghost use Rattle.std.specs.Prelude.{◌≡◌, IfOk, [], ◌∷◌, codes, unwrap_or};
ghost use Rattle.ks_json.specs.View.{view};
ghost use Rattle.ks_shape.specs.Bodies.{whole_document};
ghost use Rattle.ks_shape.specs.Readings.{Reads, ReadsBy};
ghost use Rattle.ks_written.specs.Written.{default_domain, document_of, is_folder, written_in};

use crate::entries::{entries, listed};
use crate::key_texts::read_keys;
use crate::settings::read_settings;
use crate::written::{KeysFrom, Written};
use ks_base::limits::OPENING_BYTES;
use ks_base::{DomainList, DomainRow, Id, Memory, ShapeFault, ShapeRefusal, Text};
use ks_json::{Scratch, Value};
use ks_machine::Settings;
use ks_shape::{Node, read_document};
use std::alloc::Global;

/// The JSON document that a file is.
#[tactic(auto, unfolding(crate::specs::Written::document_of))]
pub fn read_file<'a>(
    alloc: Global,
    text: &'a [u8],
    scratch: &'a mut Scratch,
) -> Result<Value<'a>, ShapeRefusal>
    ensures { ReadsBy view result (document_of text.now) }
{
    if text.len() > OPENING_BYTES {
        let path = Text::of(alloc, "")?;
        return Err(ShapeRefusal::Shape(ShapeFault::Range(path)));
    }
    read_document(alloc, text, scratch)
}

fn default_id() -> Id
    ensures { result ≡ codes "default" }
{
    let Ok(id) = Id::read(b"default") else {
        unreachable!()
    };
    id
}

/// The domains of a file that lists none.
fn default_domains(alloc: Global) -> Result<DomainList, Memory>
    ensures { IfOk result (λ made. made ≡ default_domain ∷ []) }
{
    let mut domains = DomainList::new(alloc);
    domains.push(DomainRow {
        id: default_id(),
        name: Text::of(alloc, "Default")?,
        description: Text::of(alloc, "")?,
        enabled: true,
    })?;
    Ok(domains)
}

fn domains_or(alloc: Global, domains: Option<DomainList>) -> Result<DomainList, Memory>
    ensures { IfOk result (λ made. made ≡ unwrap_or domains (default_domain ∷ [])) }
{
    match domains {
        Some(domains) => Ok(domains),
        None => default_domains(alloc),
    }
}

/// Whether the keys are those of the folder.
pub fn is_folder(keys: &KeysFrom) -> bool
    ensures { result ≡ is_folder keys.now }
{
    matches!(keys, KeysFrom::Folder)
}

/// What a file says, apart from its policy.
#[tactic(auto, unfolding(crate::specs::Written::written_in))]
pub fn read_written(alloc: Global, file: &Value<'_>) -> Result<Written, ShapeRefusal>
    ensures { Reads result (written_in (whole_document (view file.now))) }
{
    let path = Text::of(alloc, "")?;
    let file = Node::known_as(alloc, path, file);
    let settings = read_settings(alloc, &file)?;
    let keys = read_keys(alloc, &file)?;
    let domains = listed(alloc, &file, &["domains"])?;
    let projects = entries(alloc, &file, &["projects"])?;
    let users = entries(alloc, &file, &["users"])?;
    let groups = entries(alloc, &file, &["groups"])?;
    let members = entries(alloc, &file, &["members"])?;
    let roles = entries(alloc, &file, &["roles"])?;
    let implications = entries(alloc, &file, &["implications"])?;
    let regions = entries(alloc, &file, &["regions"])?;
    let services = entries(alloc, &file, &["services"])?;
    let endpoints = entries(alloc, &file, &["endpoints"])?;
    let assignments = entries(alloc, &file, &["assignments"])?;
    Ok(Written {
        settings: Settings {
            folder: is_folder(&keys),
            ..settings
        },
        keys,
        domains: domains_or(alloc, domains)?,
        projects,
        users,
        groups,
        members,
        roles,
        implications,
        regions,
        services,
        endpoints,
        assignments,
    })
}
