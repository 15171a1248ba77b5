//! The commands on a folder of keys. Both take their random bytes first, then change the folder, and say at
//! last which indices it has.
ghost use Rattle.std.specs.Prelude.{◌≡◌, ◌≤◌, ◌∷◌, [], ℕ, List, Some, length, IfOk, IfErr, string_bytes};
ghost use Rattle.ks_base.specs.declared.limits.TheConstants.{FEWEST_KEYS, KEYS};
ghost use Rattle.ks_outside.specs.Counts.{Counts};
ghost use Rattle.ks_outside.specs.declared.desk_call.DeskCall.TheVariants as desk_call;
ghost use Rattle.ks_outside.specs.Desks.{Fills, Makes};
ghost use Rattle.ks_outside.specs.Files.{KeyFile};
ghost use Rattle.ks_outside.specs.Streams.{OnlyWrites};
ghost use Rattle.ks_commands.specs.KeyFolders.{EndsRotation, EndsSetup, IsFolderFault, OnlyDraws, key_from, keys_line};
ghost use Rattle.ks_commands.specs.steps.KeyCalls.{IsSayingFault, Says};

use crate::fault::Fault;
use itoa::Buffer;
use ks_base::{Key, Memory};
use ks_keyfiles::{rotate_dir, setup};
use ks_outside::{Desk, KeyDir, Sink, write_all};
use std::alloc::Global;

/// Makes the keys of an empty folder: of 64 random bytes the first 32 are the staged key and the others the
/// primary one.
pub fn set_up<D: KeyDir, P: Desk, K: Sink>(
    dir: &mut D,
    desk: &mut P,
    output: &mut K,
) -> Result<(), Fault>
    ensures told { (random before : List ℕ) (files : List KeyFile) → (P.desk desk.old).random ≡ Some random → (D.dir dir.old).files ≡ Some files →
        (K.stream output.old).written ≡ Some before →
        EndsSetup random files before (record { random = (P.desk desk.new).random; files = (D.dir dir.new).files; written = (K.stream output.new).written }) result }
    ensures causes { IfErr result IsFolderFault }
    ensures folder { Counts (result ≡ Err Fault.Folder) (D.dir dir.old).faults (D.dir dir.new).faults }
    ensures draws { Counts (result ≡ Err Fault.Desk) (P.desk desk.old).fill_faults (P.desk desk.new).fill_faults }
    ensures kept { OnlyDraws (P.desk desk.old) (P.desk desk.new) }
    ensures fills { Makes (desk_call.Fill 64 ∷ []) (P.desk desk.old).calls (P.desk desk.new).calls }
    ensures writes { OnlyWrites (result ≡ Err Fault.Write) (K.stream output.old) (K.stream output.new) }
{
    let mut bytes = [0u8; 64];
    draw(desk, &mut bytes)?;
    let (staged, primary) = bytes.split_at(32);
    match setup(dir, key_from(staged), key_from(primary)) {
        Ok(()) => say(output, b"keys 0 1\n"),
        Err(fault) => Err(Fault::of_keys(fault)),
    }
}

/// Rotates the keys of a folder, so that at most `max` of them are left: 32 random bytes are the new key.
pub fn rotate<D: KeyDir, P: Desk, K: Sink>(
    alloc: Global,
    dir: &mut D,
    desk: &mut P,
    max: u32,
    output: &mut K,
) -> Result<(), Fault>
    requires least { FEWEST_KEYS ≤ max }
    requires most { max ≤ KEYS }
    ensures told { (random before : List ℕ) (files : List KeyFile) → (P.desk desk.old).random ≡ Some random → (D.dir dir.old).files ≡ Some files →
        (K.stream output.old).written ≡ Some before →
        EndsRotation max random files before (record { random = (P.desk desk.new).random; files = (D.dir dir.new).files; written = (K.stream output.new).written }) result }
    ensures causes { IfErr result IsFolderFault }
    ensures folder { Counts (result ≡ Err Fault.Folder) (D.dir dir.old).faults (D.dir dir.new).faults }
    ensures draws { Counts (result ≡ Err Fault.Desk) (P.desk desk.old).fill_faults (P.desk desk.new).fill_faults }
    ensures kept { OnlyDraws (P.desk desk.old) (P.desk desk.new) }
    ensures fills { Makes (desk_call.Fill 32 ∷ []) (P.desk desk.old).calls (P.desk desk.new).calls }
    ensures writes { OnlyWrites (result ≡ Err Fault.Write) (K.stream output.old) (K.stream output.new) }
{
    let mut bytes = [0u8; 32];
    draw(desk, &mut bytes)?;
    match rotate_dir(dir, key_from(&bytes), max) {
        Ok(indices) => say_indices(alloc, output, indices.as_slice()),
        Err(fault) => Err(Fault::of_keys(fault)),
    }
}

/// Fills a piece with random bytes.
fn draw<P: Desk>(desk: &mut P, into: &mut [u8]) -> Result<(), Fault>
    ensures told { (bytes : List ℕ) → (P.desk desk.old).random ≡ Some bytes → Fills bytes (P.desk desk.new).random into.new result }
    ensures kept { OnlyDraws (P.desk desk.old) (P.desk desk.new) }
    ensures fills { Makes (desk_call.Fill (length into.old) ∷ []) (P.desk desk.old).calls (P.desk desk.new).calls }
    ensures cause { IfErr result (λ fault. fault ≡ Fault.Desk) }
    ensures faults { Counts (result ≡ Err Fault.Desk) (P.desk desk.old).fill_faults (P.desk desk.new).fill_faults }
{
    match desk.fill(into) {
        Ok(()) => Ok(()),
        Err(_) => Err(Fault::Desk),
    }
}

/// The key of 32 bytes.
fn key_from(bytes: &[u8]) -> Key
    requires { length bytes.now ≡ 32 }
    ensures { result ≡ key_from bytes.now }
{
    let (first, last) = bytes.split_at(16);
    let mut signing = [0u8; 16];
    let mut encryption = [0u8; 16];
    signing.copy_from_slice(first);
    encryption.copy_from_slice(last);
    Key {
        signing,
        encryption,
    }
}

/// Writes the line that says which indices the folder has.
fn say_indices<K: Sink>(alloc: Global, output: &mut K, indices: &[u32]) -> Result<(), Fault>
    ensures told { (before : List ℕ) → (K.stream output.old).written ≡ Some before →
        Says (keys_line indices.now) before (K.stream output.new).written result }
    ensures causes { IfErr result IsSayingFault }
    ensures writes { OnlyWrites (result ≡ Err Fault.Write) (K.stream output.old) (K.stream output.new) }
{
    let Ok(line) = keys_line(alloc, indices) else {
        return Err(Fault::Memory);
    };
    say(output, line.as_bytes())
}

/// The line that says which indices a folder has.
fn keys_line(alloc: Global, indices: &[u32]) -> Result<String, Memory>
    ensures { IfOk result (λ line. string_bytes line ≡ keys_line indices.now) }
{
    let mut line = String::from_str(alloc, "keys")?;
    'indices: for index in indices {
        line.push(' ')?;
        line.push_str(Buffer::new().format(*index))?;
    }
    line.push('\n')?;
    Ok(line)
}

/// Writes a line.
pub(crate) fn say<K: Sink>(output: &mut K, line: &[u8]) -> Result<(), Fault>
    ensures told { (before : List ℕ) → (K.stream output.old).written ≡ Some before → Says line.now before (K.stream output.new).written result }
    ensures cause { IfErr result (λ fault. fault ≡ Fault.Write) }
    ensures writes { OnlyWrites (result ≡ Err Fault.Write) (K.stream output.old) (K.stream output.new) }
{
    match write_all(output, line) {
        Ok(()) => Ok(()),
        Err(_) => Err(Fault::Write),
    }
}
