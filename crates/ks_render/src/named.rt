ghost use Rattle.std.specs.Prelude.{◌≡◌, [], ◌∷◌, OnOk};
ghost use Rattle.ks_render.specs.Named.{homed_value, titled_value, titles_value};
ghost use Rattle.ks_render.specs.steps.Writing.{Enters, Tells};

use crate::tell::{Tell, write_list};
use crate::writing::{write_id, write_text};
use json::Writer;
use ks_base::Text;
use ks_machine::{Homed, Titled, TitledList};
use std::alloc::AllocError;

/// Writes an id and its name.
pub fn write_titled(out: &mut Writer, titled: &Titled) -> Result<(), AllocError>
    ensures { OnOk result (Tells out.old out.new (titled_value titled.now)) }
{
    out.begin_object()?;
    write_id(out, "id", &titled.id)?;
    write_text(out, "name", &titled.name)?;
    out.end_object()
}

/// Writes an id and its name under a name.
pub fn write_titled_entry(out: &mut Writer, name: &str, titled: &Titled) -> Result<(), AllocError>
    ensures { OnOk result (Enters out.old out.new ((name.now, titled_value titled.now) ∷ [])) }
{
    out.key(name)?;
    write_titled(out, titled)
}

/// Writes an id and its name within a domain.
pub fn write_homed(out: &mut Writer, homed: &Homed) -> Result<(), AllocError>
    ensures { OnOk result (Tells out.old out.new (homed_value homed.now)) }
{
    out.begin_object()?;
    write_titled_entry(out, "domain", &homed.domain)?;
    write_id(out, "id", &homed.id)?;
    write_text(out, "name", &homed.name)?;
    out.end_object()
}

impl Tell for Titled {
    ghost use Rattle.ks_render.specs.Named.{titled_value};

    ghost value = { λ url titled. titled_value titled };

    ghost is_tellable = { λ titled. Unit {0} };

    fn tell(&self, out: &mut Writer, _url: &Text, _link: &mut String) -> Result<(), AllocError> {
        write_titled(out, self)
    }
}

/// Writes ids with their names.
pub fn write_titles(
    out: &mut Writer,
    titles: &TitledList,
    url: &Text,
    link: &mut String,
) -> Result<(), AllocError>
    ensures { OnOk result (Tells out.old out.new (titles_value titles.now)) }
{
    write_list(out, titles, url, link)
}
