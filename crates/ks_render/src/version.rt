ghost use Rattle.std.specs.Prelude.{◌≡◌, [], ◌∷◌, ◌++◌, codes, OnOk, string_bytes};
ghost use Rattle.ks_render.specs.Versions.{self_links, media_types, version_body, version_told, versions_body};
ghost use Rattle.ks_render.specs.steps.Writing.{Enters, Tells};

use crate::writing::{push, write_str};
use json::Writer;
use ks_base::Text;
use std::alloc::AllocError;

/// Makes the URL where the Identity API stands, in place of what `link` held.
fn make_api_url(link: &mut String, url: &Text) -> Result<(), AllocError>
    ensures { OnOk result (string_bytes link.new ≡ url.now ++ codes "/v3/") }
{
    link.clear();
    push(link, url.as_str())?;
    push(link, "/v3/")
}

fn write_self_links(out: &mut Writer, url: &Text, link: &mut String) -> Result<(), AllocError>
    ensures { OnOk result (Enters out.old out.new ((codes "links", self_links url.now) ∷ [])) }
{
    make_api_url(link, url)?;
    out.key("links")?;
    out.begin_array()?;
    out.begin_object()?;
    write_str(out, "href", link.as_str())?;
    write_str(out, "rel", "self")?;
    out.end_object()?;
    out.end_array()
}

fn write_media_types(out: &mut Writer) -> Result<(), AllocError>
    ensures { OnOk result (Enters out.old out.new ((codes "media-types", media_types) ∷ [])) }
{
    out.key("media-types")?;
    out.begin_array()?;
    out.begin_object()?;
    write_str(out, "base", "application/json")?;
    write_str(out, "type", "application/vnd.openstack.identity-v3+json")?;
    out.end_object()?;
    out.end_array()
}

/// Writes what a server at the URL tells of its version. `link` is room for texts.
fn write_told(out: &mut Writer, url: &Text, link: &mut String) -> Result<(), AllocError>
    ensures { OnOk result (Tells out.old out.new (version_told url.now)) }
{
    out.begin_object()?;
    write_str(out, "id", "v3.14")?;
    write_self_links(out, url, link)?;
    write_media_types(out)?;
    write_str(out, "status", "stable")?;
    write_str(out, "updated", "2020-04-07T00:00:00Z")?;
    out.end_object()
}

/// Writes the version document of a server at the URL. `link` is room for texts.
pub fn write_version(out: &mut Writer, url: &Text, link: &mut String) -> Result<(), AllocError>
    ensures { OnOk result (Tells out.old out.new (version_body url.now)) }
{
    out.begin_object()?;
    out.key("version")?;
    write_told(out, url, link)?;
    out.end_object()
}

/// Writes the list of the versions that a server at the URL has. `link` is room for texts.
pub fn write_versions(out: &mut Writer, url: &Text, link: &mut String) -> Result<(), AllocError>
    ensures { OnOk result (Tells out.old out.new (versions_body url.now)) }
{
    out.begin_object()?;
    out.key("versions")?;
    out.begin_object()?;
    out.key("values")?;
    out.begin_array()?;
    write_told(out, url, link)?;
    out.end_array()?;
    out.end_object()?;
    out.end_object()
}
