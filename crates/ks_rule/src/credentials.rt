use ks_base::{FieldList, TextList};

/// What is known of a caller.
pub struct Credentials {
    /// The names of the caller's roles.
    pub roles: TextList,
    /// The caller's other credentials by name, as `user_id`.
    pub named: FieldList,
}

impl Drop for Credentials {
    fn drop(self) {
        let Credentials { roles: _, named: _ } = self;
    }
}

/// The texts of a target by key, as `target.user.id`.
pub type Attributes = FieldList;
