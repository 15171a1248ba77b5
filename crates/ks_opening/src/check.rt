//! Checks of the rows of a list, one after the other.
ghost use Rattle.std.specs.Prelude.{◌≡◌};
ghost use Rattle.ks_base.specs.Refusals.{fault_in};
ghost use Rattle.ks_machine.specs.Opened.{first_alone, first_fault};

use ks_base::ListOf;
use ks_machine::OpenFault;

/// A check of a row.
pub(crate) trait Check<R> {
    ghost use Rattle.std.specs.Prelude.{◌≡◌, Option};
    ghost use Rattle.ks_base.specs.Refusals.{fault_in};
    ghost use Rattle.ks_machine.specs.declared.settings.OpenFault.{OpenFault};

    ghost fault: { Self → R → Option OpenFault };

    /// Refuses a row that is at fault.
    fn check(&self, row: &R) -> Result<(), OpenFault>
        ensures { fault_in result ≡ fault self.now row.now };
}

/// A check of a row by those before it.
pub(crate) trait CheckBehind<R> {
    ghost use Rattle.std.specs.Prelude.{◌≡◌, List, Option, take};
    ghost use Rattle.ks_base.specs.Refusals.{fault_in};
    ghost use Rattle.ks_machine.specs.declared.settings.OpenFault.{OpenFault};

    ghost rows: { Self → List R };

    ghost fault_behind: { Self → List R → R → Option OpenFault };

    /// Refuses a row that is at fault behind those which stand before this place.
    fn check_behind(&self, at: usize, row: &R) -> Result<(), OpenFault>
        ensures { fault_in result ≡ fault_behind self.now (take at (rows self.now)) row.now };
}

/// Refuses the first row that is at fault.
pub(crate) fn check_each<R, C: Check<R>>(check: &C, rows: &ListOf<R>) -> Result<(), OpenFault>
    ensures { fault_in result ≡ first_alone (C.fault check.now) rows.now }
{
    for row in rows.as_slice() {
        check.check(row)?;
    }
    Ok(())
}

/// Refuses the first row that is at fault behind those before it.
pub(crate) fn check_each_behind<R, C: CheckBehind<R>>(
    check: &C,
    rows: &ListOf<R>,
) -> Result<(), OpenFault>
    requires { C.rows check.now ≡ rows.now }
    ensures { fault_in result ≡ first_fault (C.fault_behind check.now) rows.now }
{
    for (at, row) in rows.as_slice().iter().enumerate() {
        check.check_behind(at, row)?;
    }
    Ok(())
}
