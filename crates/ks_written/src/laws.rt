//! What holds of the definitions that the contracts cite. Each law is the contract of a function that
//! does nothing.
ghost use Rattle.ks_written.specs.Records.{RecordsAreRead};

/// What is written of a password's record is read as that record.
pub fn records_are_read()
    ensures { RecordsAreRead }
{}
