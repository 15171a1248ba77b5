use ks_base::Boxed;
use ks_machine::Reply;
use ks_payload::Payload;
use ks_state::Kept;

/// What came of a call.
#[derive(Drop)]
pub struct Answer<F> {
    pub reply: Reply,
    /// How many changes came before the event that decided the call, or before the last hold where none did.
    pub changes: u64,
    /// The highest moment right after it, in whole seconds since 1970-01-01T00:00:00Z.
    pub moment: u64,
    /// What became of the changes that were not kept yet: `Memory` also where no event decided the call, so that its moment is
    /// below its reading.
    pub kept: Kept<F>,
    /// What the caller's token says of its holder, whether that is valid or not, where it was asked for and found out, and
    /// there was memory for it.
    pub caller: Option<Boxed<Payload>>,
}
