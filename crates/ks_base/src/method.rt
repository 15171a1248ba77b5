use crate::{Memory, TryCopy};

/// The method of a request (RFC 9110, section 9).
#[derive(Clone, Copy)]
pub enum Method {
    Get,
    Head,
    Post,
    Patch,
    Put,
    Delete,
    /// A method that no route has.
    Other,
}

impl TryCopy for Method {
    fn copy(&self) -> Result<Method, Memory> {
        Ok(*self)
    }
}
