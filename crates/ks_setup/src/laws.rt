//! What holds of the definitions that the contracts cite. Each law is the contract of a function that
//! does nothing.
ghost use Rattle.ks_setup.specs.Ranges.{OpensInRange};

/// The settings and rows of each opening are in range.
pub fn openings_are_in_range()
    ensures { OpensInRange }
{}
