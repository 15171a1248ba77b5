//! The entries of objects.
ghost use Rattle.std.specs.Prelude.{◌≡◌, ◌≤◌, [], ◌∷◌, ◌++◌, codes, IfSome, OnOk, string_bytes};
ghost use Rattle.std.specs.Option.{option_copied};
ghost use Rattle.serde_json.specs.Data.{boolean, null, number, string, unsigned};
ghost use Rattle.ks_time.specs.TimeTexts.{time_text};
ghost use Rattle.ks_machine.specs.Ranges.{IsExpiry};
ghost use Rattle.ks_render.specs.Values.{entry_of, moment_value, or_null};
ghost use Rattle.ks_render.specs.Named.{id_value, link_value, self_value};
ghost use Rattle.ks_render.specs.Rows.{count_value};
ghost use Rattle.ks_render.specs.steps.Writing.{Enters, Tells};

use json::Writer;
use ks_base::{Id, Text};
use ks_time::time_digits;
use std::alloc::AllocError;

/// Appends to a text.
pub fn push(text: &mut String, more: &str) -> Result<(), AllocError>
    ensures { OnOk result (string_bytes text.new ≡ string_bytes text.old ++ more.now) }
{
    text.push_str(more)?;
    Ok(())
}

/// Appends an id to a text.
pub fn push_id(text: &mut String, id: &Id) -> Result<(), AllocError>
    ensures { OnOk result (string_bytes text.new ≡ string_bytes text.old ++ id.now) }
{
    push(text, id.as_str())
}

pub fn write_str(out: &mut Writer, name: &str, text: &str) -> Result<(), AllocError>
    ensures { OnOk result (Enters out.old out.new ((name.now, string text.now) ∷ [])) }
{
    out.key(name)?;
    out.string(text)
}

pub fn write_text(out: &mut Writer, name: &str, text: &Text) -> Result<(), AllocError>
    ensures { OnOk result (Enters out.old out.new ((name.now, string text.now) ∷ [])) }
{
    write_str(out, name, text.as_str())
}

/// Writes a text, if there is one.
pub fn write_given(out: &mut Writer, name: &str, text: Option<&Text>) -> Result<(), AllocError>
    ensures { OnOk result (Enters out.old out.new (entry_of name.now string (option_copied text.entry))) }
{
    match text {
        Some(text) => write_text(out, name, text),
        None => Ok(()),
    }
}

pub fn write_id(out: &mut Writer, name: &str, id: &Id) -> Result<(), AllocError>
    ensures { OnOk result (Enters out.old out.new ((name.now, string id.now) ∷ [])) }
{
    write_str(out, name, id.as_str())
}

pub fn write_flag(out: &mut Writer, name: &str, flag: bool) -> Result<(), AllocError>
    ensures { OnOk result (Enters out.old out.new ((name.now, boolean flag) ∷ [])) }
{
    out.key(name)?;
    out.boolean(flag)
}

pub fn write_null(out: &mut Writer, name: &str) -> Result<(), AllocError>
    ensures { OnOk result (Enters out.old out.new ((name.now, null) ∷ [])) }
{
    out.key(name)?;
    out.null()
}

pub fn write_count(out: &mut Writer, name: &str, count: u64) -> Result<(), AllocError>
    ensures { OnOk result (Enters out.old out.new ((name.now, count_value count) ∷ [])) }
{
    out.key(name)?;
    out.u64(count)
}

pub fn write_time(out: &mut Writer, name: &str, moment: u64) -> Result<(), AllocError>
    requires { IsExpiry moment }
    ensures { OnOk result (Enters out.old out.new ((name.now, moment_value moment) ∷ [])) }
{
    write_str(out, name, time_digits(moment).as_str())
}

pub fn write_id_or_null(out: &mut Writer, name: &str, id: &Option<Id>) -> Result<(), AllocError>
    ensures { OnOk result (Enters out.old out.new ((name.now, or_null string id.now) ∷ [])) }
{
    match id {
        Some(id) => write_id(out, name, id),
        None => write_null(out, name),
    }
}

pub fn write_count_or_null(
    out: &mut Writer,
    name: &str,
    count: Option<u64>,
) -> Result<(), AllocError>
    ensures { OnOk result (Enters out.old out.new ((name.now, or_null count_value count) ∷ [])) }
{
    match count {
        Some(count) => write_count(out, name, count),
        None => write_null(out, name),
    }
}

pub fn write_time_or_null(
    out: &mut Writer,
    name: &str,
    moment: Option<u64>,
) -> Result<(), AllocError>
    requires { IfSome moment IsExpiry }
    ensures { OnOk result (Enters out.old out.new ((name.now, or_null moment_value moment) ∷ [])) }
{
    match moment {
        Some(moment) => write_time(out, name, moment),
        None => write_null(out, name),
    }
}

/// Writes an object that has the id alone.
#[tactic(auto, unfolding(crate::specs::Named::id_value))]
pub fn write_id_object(out: &mut Writer, name: &str, id: &Id) -> Result<(), AllocError>
    ensures { OnOk result (Enters out.old out.new ((name.now, id_value id.now) ∷ [])) }
{
    out.key(name)?;
    out.begin_object()?;
    write_id(out, "id", id)?;
    out.end_object()
}

/// Makes the text of where an object stands, in place of what `link` held.
fn make_link(link: &mut String, url: &Text, place: &str, id: &Id) -> Result<(), AllocError>
    ensures { OnOk result (string_bytes link.new ≡ url.now ++ (place.now ++ id.now)) }
{
    link.clear();
    push(link, url.as_str())?;
    push(link, place)?;
    push_id(link, id)
}

/// Writes a link under the name `links`.
pub fn write_link(out: &mut Writer, link: &str) -> Result<(), AllocError>
    ensures { OnOk result (Enters out.old out.new ((codes "links", link_value link.now) ∷ [])) }
{
    out.key("links")?;
    out.begin_object()?;
    write_str(out, "self", link)?;
    out.end_object()
}

/// Writes under the name `links` where an object stands.
pub fn write_self(
    out: &mut Writer,
    url: &Text,
    place: &str,
    id: &Id,
    link: &mut String,
) -> Result<(), AllocError>
    ensures { OnOk result (Enters out.old out.new ((codes "links", self_value url.now place.now id.now) ∷ [])) }
{
    make_link(link, url, place, id)?;
    write_link(out, link.as_str())
}
