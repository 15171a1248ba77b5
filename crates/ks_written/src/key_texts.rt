ghost use Rattle.ks_shape.specs.Places.{place_of};
ghost use Rattle.ks_shape.specs.Readings.{Reads};
ghost use Rattle.ks_written.specs.Written.{folder_text, key_texts, keys_of};

use crate::entries::each;
use crate::written::KeysFrom;
use ks_base::ShapeRefusal;
use ks_base::limits::KEYS;
use ks_json::Value;
use ks_shape::{AnyText, FieldType, Misfit, Node, Unread};
use std::alloc::Global;

/// The text `folder`.
#[derive(Clone, Copy)]
pub(crate) struct FolderText;

impl FieldType for FolderText {
    type Field = KeysFrom;

    ghost reads = { λ _. folder_text };

    #[tactic(auto, unfolding(crate::specs::Written::folder_text))]
    fn read(&self, alloc: Global, value: &Value<'_>) -> Result<KeysFrom, Unread> {
        let text = AnyText.read(alloc, value)?;
        if text.as_str() == "folder" {
            return Ok(KeysFrom::Folder);
        }
        Err(Unread::Misfit(Misfit::Range))
    }
}

/// The list of the keys' texts.
#[tactic(auto, using(ks_shape::proofs::ListLemmas::count_is), unfolding(crate::specs::Written::key_texts))]
fn read_texts(alloc: Global, file: &Node) -> Result<KeysFrom, ShapeRefusal>
    ensures { Reads result (key_texts (place_of file.now)) }
{
    let values = file.needed_list(&["keys"], KEYS)?;
    if values.is_empty() {
        return file.refuse(&["keys"], Misfit::Range);
    }
    let texts = each(alloc, file, &["keys"], values)?;
    Ok(KeysFrom::File(texts))
}

/// Where the keys of a file come from.
#[tactic(auto, unfolding(crate::specs::Written::keys_of))]
pub(crate) fn read_keys(alloc: Global, file: &Node) -> Result<KeysFrom, ShapeRefusal>
    ensures { Reads result (keys_of (place_of file.now)) }
{
    let Some(value) = file.optional_value(&["keys"])? else {
        return Ok(KeysFrom::Folder);
    };
    match value.as_array() {
        Some(_) => read_texts(alloc, file),
        None => file.needed(&["keys"], &FolderText),
    }
}
