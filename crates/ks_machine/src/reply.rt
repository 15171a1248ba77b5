use crate::{BodyOut, Cause};

/// The answer to a request.
pub enum Reply {
    Ok(BodyOut),
    Refused(Cause),
}

impl Drop for Reply {
    fn drop(self) {
        match self {
            Reply::Ok(_) | Reply::Refused(_) => {}
        }
    }
}
