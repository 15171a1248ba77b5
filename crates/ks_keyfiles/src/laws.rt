//! What holds of the definitions that the contracts cite. Each law is the contract of a function
//! that does nothing.
ghost use Rattle.ks_keyfiles.specs.Laws.{FindsEachKey, FindsNoOther, LeavesTheNewest, LosesNoKey, ReadsWhatIsSetUp};

/// A file's content is read as a key exactly where it is a text of this key, alone or with one line feed
/// behind it.
pub fn file_is_key()
    ensures some { FindsEachKey }
    ensures none { FindsNoOther }
{}

/// A folder that was set up is read as the two keys.
pub fn set_up_is_read()
    ensures { ReadsWhatIsSetUp }
{}

/// A rotation leaves the new key and the newest of the others, and wherever it is interrupted it has lost none
/// of these.
pub fn rotation_leaves_the_newest()
    ensures newest { LeavesTheNewest }
    ensures on_the_way { LosesNoKey }
{}
