use ks_base::IdList;
use ks_machine::Why;
use ks_payload::Payload;

/// What a token's text is.
#[derive(Drop)]
pub enum Verdict {
    /// A valid token: what it says, the second at which it was issued, and its roles in the order of their ids.
    Valid(Payload, u64, IdList),
    /// The first line of its validity that does not hold.
    Refused(Why),
    /// A key has no fact about the text, above the first that is known to open it.
    Needs,
}
