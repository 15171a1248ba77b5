ghost use Rattle.std.specs.Prelude.{◌≡◌, List, map, OnOk};
ghost use Rattle.std.specs.List.{AllByRecursion};
ghost use Rattle.ks_render.specs.Values.{array_of};
ghost use Rattle.ks_render.specs.steps.Writing.{Tells};

use json::Writer;
use ks_base::{ListOf, Text};
use std::alloc::AllocError;

/// What is told as a value of a list.
pub trait Tell {
    ghost use Rattle.std.specs.Prelude.{ℕ, List};
    ghost use Rattle.serde_json.specs.Data.{Data};

    // What is told of it by a server at a URL.
    ghost value: { List ℕ → Self → Data };

    // Its moments have texts.
    ghost is_tellable: { Self → Type 0 };

    /// Writes what is told. `link` is room for a text.
    fn tell(&self, out: &mut Writer, url: &Text, link: &mut String) -> Result<(), AllocError>
        requires { is_tellable self.now }
        ensures { OnOk result (Tells out.old out.new (value url.now self.now)) };
}

fn write_items<T: Tell>(
    out: &mut Writer,
    items: &[T],
    url: &Text,
    link: &mut String,
) -> Result<(), AllocError>
    requires { AllByRecursion T.is_tellable items.now }
    ensures { OnOk result (Tells out.old out.new (array_of (map (T.value url.now) items.now))) }
{
    out.begin_array()?;
    for item in items {
        item.tell(out, url, link)?;
    }
    out.end_array()
}

/// Writes all of a list. `link` is room for texts.
pub fn write_list<T: Tell>(
    out: &mut Writer,
    list: &ListOf<T>,
    url: &Text,
    link: &mut String,
) -> Result<(), AllocError>
    requires { AllByRecursion T.is_tellable list.now }
    ensures { OnOk result (Tells out.old out.new (array_of (map (T.value url.now) list.now))) }
{
    write_items(out, list.as_slice(), url, link)
}
