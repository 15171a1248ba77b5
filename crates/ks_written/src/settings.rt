ghost use Rattle.std.specs.Prelude.{◌≡◌, ◌==◌, IfOk};
ghost use Rattle.std.specs.List.{list_all, starts_with};
ghost use Rattle.ks_shape.specs.Places.{place_of};
ghost use Rattle.ks_shape.specs.Readings.{Reads};
ghost use Rattle.ks_shape.specs.Types.{whole};
ghost use Rattle.ks_written.specs.Written.{default_settings, is_url, is_visible, settings_at, settings_of, url_text};

use crate::rows::text_or;
use ks_base::limits::URL_BYTES;
use ks_base::{Memory, ShapeRefusal, Text};
use ks_json::Value;
use ks_machine::Settings;
use ks_shape::{FieldType, Misfit, Node, TextOf, Unread, Whole};
use std::alloc::Global;

const URL: &str = "http://127.0.0.1:5000";

/// In seconds.
const LIFE: Whole = Whole {
    least: 60,
    most: 604_800,
};

const ROUNDS: Count = Count {
    least: 1,
    most: 100_000,
};

const MAX_KEYS: Count = Count { least: 2, most: 32 };

/// A whole number of 32 bits within these bounds.
#[derive(Clone, Copy)]
pub(crate) struct Count {
    least: u32,
    most: u32,
}

impl FieldType for Count {
    type Field = u32;

    ghost reads = { λ bounds. whole bounds.least bounds.most };

    #[tactic(auto, using(crate::proofs::CountLemmas::whole_fits))]
    fn read(&self, alloc: Global, value: &Value<'_>) -> Result<u32, Unread> {
        let bounds = Whole {
            least: u64::from(self.least),
            most: u64::from(self.most),
        };
        let number = bounds.read(alloc, value)?;
        match u32::try_from(number) {
            Ok(number) => Ok(number),
            Err(_) => Err(Unread::Misfit(Misfit::Range)),
        }
    }
}

/// The public URL, which stands in fields of responses: one line of visible ASCII with the scheme of HTTP in front.
#[derive(Clone, Copy)]
pub(crate) struct UrlText;

fn is_visible(byte: u8) -> bool
    ensures { result ≡ is_visible byte }
{
    32 < byte && byte < 127
}

fn are_visible(text: &[u8]) -> bool
    ensures { result ≡ list_all is_visible text.now }
{
    text.iter().all(|byte| is_visible(*byte))
}

fn begins(text: &[u8], scheme: &[u8]) -> bool
    ensures { result ≡ starts_with (λ a b. a == b) text.now scheme.now }
{
    text.starts_with(scheme)
}

/// Whether the text is one line of visible ASCII that begins with `http://` or `https://`.
fn is_url(text: &[u8]) -> bool
    ensures { result ≡ is_url text.now }
{
    are_visible(text) && (begins(text, b"http://") || begins(text, b"https://"))
}

impl FieldType for UrlText {
    type Field = Text;

    ghost reads = { λ _. url_text };

    #[tactic(auto, unfolding(crate::specs::Written::url_text))]
    fn read(&self, alloc: Global, value: &Value<'_>) -> Result<Text, Unread> {
        let limits = TextOf {
            least: 1,
            most: URL_BYTES,
        };
        let text = limits.read(alloc, value)?;
        if is_url(text.as_slice()) {
            return Ok(text);
        }
        Err(Unread::Misfit(Misfit::Range))
    }
}

fn default_settings(alloc: Global) -> Result<Settings, Memory>
    ensures { IfOk result (λ made. made ≡ default_settings) }
{
    Ok(Settings {
        url: Text::of(alloc, URL)?,
        life: 3600,
        rounds: 10_000,
        max_keys: 3,
        folder: true,
    })
}

/// The settings that stand at a place.
#[tactic(auto, unfolding(crate::specs::Written::settings_at))]
fn settings_at(alloc: Global, place: &Node) -> Result<Settings, ShapeRefusal>
    ensures { Reads result (settings_at (place_of place.now)) }
{
    let url = place.optional(&["url"], &UrlText)?;
    let life = place.optional(&["life"], &LIFE)?;
    let rounds = place.optional(&["rounds"], &ROUNDS)?;
    let max_keys = place.optional(&["max_active_keys"], &MAX_KEYS)?;
    Ok(Settings {
        url: text_or(alloc, url, URL)?,
        life: life.unwrap_or(3600),
        rounds: rounds.unwrap_or(10_000),
        max_keys: max_keys.unwrap_or(3),
        folder: true,
    })
}

/// The settings of a file, which keep to the folder.
#[tactic(auto, unfolding(crate::specs::Written::settings_of))]
pub(crate) fn read_settings(alloc: Global, file: &Node) -> Result<Settings, ShapeRefusal>
    ensures { Reads result (settings_of (place_of file.now)) }
{
    match file.optional_value(&["settings"])? {
        Some(value) => {
            let path = Text::of(alloc, "settings")?;
            settings_at(alloc, &Node::known_as(alloc, path, value))
        }
        None => Ok(default_settings(alloc)?),
    }
}
