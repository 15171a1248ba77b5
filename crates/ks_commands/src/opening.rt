//! What a server reads to open: its file, and the keys of the folder where the file takes them from there.
ghost use Rattle.std.specs.Prelude.{◌≡◌, ◌≤◌, ℕ, List, Some, length, Err, IfOk, IfErr};
ghost use Rattle.ks_outside.specs.Files.{OnlyLooks};
ghost use Rattle.ks_outside.specs.Streams.{OnlyReads};
ghost use Rattle.ks_setup.specs.Forms.{IsFormOf};
ghost use Rattle.ks_written.specs.Written.{folder_wanted};
ghost use Rattle.ks_commands.specs.Opened.{AreHeld, ReadsFile};
ghost use Rattle.ks_commands.specs.declared.checker.TheConstants.{PIECE};
ghost use Rattle.ks_commands.specs.steps.Openings.{IsRead, IsReadFault, StopsHeld};

use crate::checker::PIECE;
use crate::fault::Fault;
use ks_base::KeyList;
use ks_base::limits::OPENING_BYTES;
use ks_keyfiles::read_dir;
use ks_outside::{KeyDir, Source};
use ks_setup::OpeningFile;
use std::alloc::{AllocError, Global};

/// The file of this text, and the keys that the folder holds, where the file takes its keys from there.
pub fn read_opening_file<D: KeyDir>(
    alloc: Global,
    text: &[u8],
    dir: &mut D,
) -> Result<(OpeningFile, KeyList), Fault>
    ensures form { IfOk result (λ read. IsFormOf text.now read.0) }
    ensures held { IfOk result (λ read. AreHeld (folder_wanted text.now) (D.dir dir.old) read.1) }
    ensures stops { IfErr result (StopsHeld text.now (D.dir dir.old)) }
    ensures looks { OnlyLooks (result ≡ Err Fault.Folder) (D.dir dir.old) (D.dir dir.new) }
{
    let file = match OpeningFile::read(alloc, text) {
        Ok(file) => file,
        Err(fault) => return Err(Fault::of_opening(fault)),
    };
    if !file.wants_folder() {
        return Ok((file, KeyList::new(alloc)));
    }
    match read_dir(dir) {
        Ok(keys) => Ok((file, keys)),
        Err(fault) => Err(Fault::of_keys(fault)),
    }
}

/// Reads a file to its end, or until it is longer than an opening file may be: of a longer one a piece more is read
/// at most, which is enough to refuse it.
pub fn read_file<F: Source>(alloc: Global, file: &mut F) -> Result<Vec<u8>, Fault>
    ensures read { IfOk result (λ text. IsRead (F.stream file.old) text.items) }
    ensures causes { IfErr result IsReadFault }
    ensures reach { (told : List ℕ) → (F.stream file.old).left ≡ Some told → ReadsFile told (F.stream file.new).left }
    ensures reads { OnlyReads (result ≡ Err Fault.Read) (F.stream file.old) (F.stream file.new) }
{
    let Ok(mut piece) = room(alloc) else {
        return Err(Fault::Memory);
    };
    let mut text = Vec::new(alloc);
    'pieces: while text.len() <= OPENING_BYTES {
        let Ok(count) = file.read(piece.as_mut_slice()) else {
            return Err(Fault::Read);
        };
        if count == 0 {
            return Ok(text);
        }
        if text.extend_from_slice(&piece[..count]).is_err() {
            return Err(Fault::Memory);
        }
    }
    Ok(text)
}

/// Room for a piece of the file.
fn room(alloc: Global) -> Result<Vec<u8>, AllocError>
    ensures { IfOk result (λ piece. length piece.items ≡ PIECE) }
{
    vec![in alloc; 0u8; PIECE]
}
