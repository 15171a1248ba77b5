use std::fmt;

/// A Fernet key: 16 bytes that sign and 16 that encipher.
#[derive(Clone, Copy, PartialEq, Eq)]
pub struct Key {
    pub signing: [u8; 16],
    pub encryption: [u8; 16],
}

/// No printing shows a byte of a key.
impl fmt::Debug for Key {
    fn fmt<W: fmt::Write>(&self, f: &mut fmt::Formatter<W>) -> fmt::Result {
        f.write_str("Key(..)")
    }
}
