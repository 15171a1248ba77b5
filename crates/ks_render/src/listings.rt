ghost use Rattle.std.specs.Prelude.{◌≡◌, [], ◌∷◌, ◌++◌, codes, map, OnOk, string_bytes};
ghost use Rattle.std.specs.List.{AllByRecursion};
ghost use Rattle.ks_machine.specs.Told.{IsRowTellable};
ghost use Rattle.ks_render.specs.Values.{array_of};
ghost use Rattle.ks_render.specs.Listings.{inference_body, keys_body, links_then_rows, links_value, many_body, rows_then_links};
ghost use Rattle.ks_render.specs.Named.{titled_value, titles_value};
ghost use Rattle.ks_render.specs.Rows.{row_value};
ghost use Rattle.ks_render.specs.steps.Writing.{Enters, Tells};

use crate::named::{write_titled_entry, write_titles};
use crate::tell::{Tell, write_list};
use crate::writing::{push, write_count, write_null, write_str};
use json::Writer;
use ks_base::{IndexList, ListOf, Text};
use ks_machine::{RowKind, RowList, Titled, TitledList};
use std::alloc::AllocError;

/// Makes the URL of a path, in place of what `link` held.
fn make_url(link: &mut String, url: &Text, path: &Text) -> Result<(), AllocError>
    ensures { OnOk result (string_bytes link.new ≡ url.now ++ path.now) }
{
    link.clear();
    push(link, url.as_str())?;
    push(link, path.as_str())
}

/// Writes under the name `links` where a listing stands.
pub fn write_links(
    out: &mut Writer,
    url: &Text,
    path: &Text,
    link: &mut String,
) -> Result<(), AllocError>
    ensures { OnOk result (Enters out.old out.new ((codes "links", links_value url.now path.now) ∷ [])) }
{
    make_url(link, url, path)?;
    out.key("links")?;
    out.begin_object()?;
    write_null(out, "next")?;
    write_null(out, "previous")?;
    write_str(out, "self", link.as_str())?;
    out.end_object()
}

/// Writes rows under a name.
pub fn write_rows<T: Tell>(
    out: &mut Writer,
    name: &str,
    rows: &ListOf<T>,
    url: &Text,
    link: &mut String,
) -> Result<(), AllocError>
    requires { AllByRecursion T.is_tellable rows.now }
    ensures { OnOk result (Enters out.old out.new ((name.now, array_of (map (T.value url.now) rows.now)) ∷ [])) }
{
    out.key(name)?;
    write_list(out, rows, url, link)
}

/// Writes rows under a name that comes before `links`.
pub fn write_rows_then_links<T: Tell>(
    out: &mut Writer,
    name: &str,
    rows: &ListOf<T>,
    url: &Text,
    path: &Text,
    link: &mut String,
) -> Result<(), AllocError>
    requires { AllByRecursion T.is_tellable rows.now }
    ensures { OnOk result (Tells out.old out.new (rows_then_links name.now (map (T.value url.now) rows.now) url.now path.now)) }
{
    out.begin_object()?;
    write_rows(out, name, rows, url, link)?;
    write_links(out, url, path, link)?;
    out.end_object()
}

/// Writes rows under a name that comes after `links`.
pub fn write_links_then_rows<T: Tell>(
    out: &mut Writer,
    name: &str,
    rows: &ListOf<T>,
    url: &Text,
    path: &Text,
    link: &mut String,
) -> Result<(), AllocError>
    requires { AllByRecursion T.is_tellable rows.now }
    ensures { OnOk result (Tells out.old out.new (links_then_rows name.now (map (T.value url.now) rows.now) url.now path.now)) }
{
    out.begin_object()?;
    write_links(out, url, path, link)?;
    write_rows(out, name, rows, url, link)?;
    out.end_object()
}

/// Writes the rows of a kind.
pub fn write_many(
    out: &mut Writer,
    kind: RowKind,
    rows: &RowList,
    url: &Text,
    path: &Text,
    link: &mut String,
) -> Result<(), AllocError>
    requires { AllByRecursion IsRowTellable rows.now }
    ensures { OnOk result (Tells out.old out.new (many_body kind (map (row_value url.now) rows.now) url.now path.now)) }
{
    match kind {
        RowKind::Domain => write_rows_then_links(out, "domains", rows, url, path, link),
        RowKind::Project => write_links_then_rows(out, "projects", rows, url, path, link),
        RowKind::User => write_links_then_rows(out, "users", rows, url, path, link),
        RowKind::Group => write_rows_then_links(out, "groups", rows, url, path, link),
        RowKind::Role => write_links_then_rows(out, "roles", rows, url, path, link),
        RowKind::Region => write_links_then_rows(out, "regions", rows, url, path, link),
        RowKind::Service => write_links_then_rows(out, "services", rows, url, path, link),
        RowKind::Endpoint => write_rows_then_links(out, "endpoints", rows, url, path, link),
    }
}

/// Writes a role that implies another one.
pub fn write_inference(out: &mut Writer, prior: &Titled, implied: &Titled) -> Result<(), AllocError>
    ensures { OnOk result (Tells out.old out.new (inference_body (titled_value implied.now) prior.now)) }
{
    out.begin_object()?;
    out.key("role_inference")?;
    out.begin_object()?;
    write_titled_entry(out, "implies", implied)?;
    write_titled_entry(out, "prior_role", prior)?;
    out.end_object()?;
    out.end_object()
}

/// Writes a role and all that it implies.
pub fn write_inferences(
    out: &mut Writer,
    prior: &Titled,
    implied: &TitledList,
    url: &Text,
    link: &mut String,
) -> Result<(), AllocError>
    ensures { OnOk result (Tells out.old out.new (inference_body (titles_value implied.now) prior.now)) }
{
    out.begin_object()?;
    out.key("role_inference")?;
    out.begin_object()?;
    out.key("implies")?;
    write_titles(out, implied, url, link)?;
    write_titled_entry(out, "prior_role", prior)?;
    out.end_object()?;
    out.end_object()
}

impl Tell for u32 {
    ghost use Rattle.ks_render.specs.Rows.{count_value};

    ghost value = { λ url index. count_value index };

    ghost is_tellable = { λ index. Unit {0} };

    fn tell(&self, out: &mut Writer, _url: &Text, _link: &mut String) -> Result<(), AllocError> {
        out.u64(u64::from(*self))
    }
}

/// Writes the indices of keys, and that of the key that seals.
pub fn write_keys(
    out: &mut Writer,
    held: &IndexList,
    primary: u32,
    url: &Text,
    link: &mut String,
) -> Result<(), AllocError>
    ensures { OnOk result (Tells out.old out.new (keys_body held.now primary)) }
{
    out.begin_object()?;
    out.key("keys")?;
    out.begin_object()?;
    write_rows(out, "held", held, url, link)?;
    write_count(out, "primary", u64::from(primary))?;
    out.end_object()?;
    out.end_object()
}
