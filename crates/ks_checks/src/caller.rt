use ks_base::IdList;
use ks_payload::Payload;

/// Whose call it is, by a valid token.
#[derive(Drop)]
pub struct Caller {
    /// What the token says.
    pub payload: Payload,
    /// The second at which it was issued, since 1970-01-01T00:00:00Z.
    pub issued: u64,
    /// Its roles, in the order of their ids.
    pub roles: IdList,
}
