ghost use Rattle.std.specs.Prelude.{◌≡◌};
ghost use Rattle.ks_base.specs.Refusals.{fault_in, fault_if};

/// Refuses for this fault, where it applies.
pub fn refuse_if<F: Drop>(applies: bool, fault: F) -> Result<(), F>
    ensures { fault_in result ≡ fault_if applies fault }
{
    if applies { Err(fault) } else { Ok(()) }
}
