//! What is printed of secrets.

use ks_base::{Drawn, Key};
use std::test::Fail;

#[test]
fn no_printing_shows_a_key_or_a_draw(rt: HostRuntime) -> Result<(), Fail> {
    let key = Key {
        signing: [7; 16],
        encryption: [9; 16],
    };
    let draw = Drawn::Bytes([7; 64]);
    let printed = format!(in rt.alloc(); "{key:?} {draw:?}")?;
    assert_eq!(rt; printed.as_str(), "Key(..) Bytes(..)");
    Ok(())
}
