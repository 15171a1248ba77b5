//! The fields of a payload, each written behind what stands there.
ghost use Rattle.std.specs.Prelude.{◌≡◌, ◌++◌, OnOk};
ghost use Rattle.ks_payload.specs.IdFields.{id_field};
ghost use Rattle.ks_payload.specs.Payloads.{field_if_any, audit_field};

use crate::hex_id::{is_hex_id, packed};
use ks_base::{Id, Memory};

pub fn push_id(out: &mut Vec<u8>, id: &Id) -> Result<(), Memory>
    ensures { OnOk result (out.new.items ≡ out.old.items ++ id_field id.now) }
{
    let text = id.as_slice();
    if is_hex_id(text) {
        out.push(0)?;
        out.extend_from_slice(&packed(text))?;
        return Ok(());
    }
    out.push(text.len() as u8)?;
    out.extend_from_slice(text)?;
    Ok(())
}

pub fn push_id_if_any(out: &mut Vec<u8>, id: &Option<Id>) -> Result<(), Memory>
    ensures { OnOk result (out.new.items ≡ out.old.items ++ field_if_any id.now) }
{
    match id {
        Some(id) => push_id(out, id),
        None => Ok(()),
    }
}

pub fn push_audits(
    out: &mut Vec<u8>,
    audit: &[u8; 16],
    chain: &Option<[u8; 16]>,
) -> Result<(), Memory>
    ensures { OnOk result (out.new.items ≡ out.old.items ++ audit_field audit.now chain.now) }
{
    let Some(chain) = chain else {
        out.push(1)?;
        out.extend_from_slice(audit)?;
        return Ok(());
    };
    out.push(2)?;
    out.extend_from_slice(audit)?;
    out.extend_from_slice(chain)?;
    Ok(())
}
