//! The record of a password, of which an opening file then need not hold the plain text.
ghost use Rattle.std.specs.Prelude.{◌≡◌, ◌≤◌, ◌==◌, ◌∷◌, ◌++◌, [], ℕ, List, Some, IfOk, IfErr, string_bytes};
ghost use Rattle.std.specs.List.{list_any};
ghost use Rattle.ks_base.specs.declared.limits.TheConstants.{ROUNDS};
ghost use Rattle.ks_outside.specs.Counts.{Counts};
ghost use Rattle.ks_outside.specs.Streams.{OnlyReads, OnlyWrites};
ghost use Rattle.ks_written.specs.Records.{record_text};
ghost use Rattle.ks_commands.specs.Passwords.{DrawsOnce, EndsPassword, IsPasswordFault, ReadsFront, first_line_of, password_of};
ghost use Rattle.ks_commands.specs.steps.KeyCalls.{IsSayingFault, Says};
ghost use Rattle.ks_commands.specs.steps.Openings.{IsReadFault};
ghost use Rattle.ks_commands.specs.steps.PasswordReads.{Gives, GivesAlike, IsRecordFault, LacksPassword, StopsPassword};

use crate::fault::Fault;
use crate::key_folder::say;
use crate::lines::first_line;
use ks_base::limits::PASSWORD_BYTES;
use ks_base::{Memory, PasswordRow, Text};
use ks_outside::{Desk, Sink, Source};
use ks_setup::derive_password;
use ks_written::record_text;
use std::alloc::Global;

/// Reads a password from the input, and writes what is kept of it, derived by so many rounds with 16 random bytes of the
/// desk as its salt.
pub fn make_record<S: Source, P: Desk, K: Sink>(
    alloc: Global,
    rounds: u32,
    input: &mut S,
    desk: &mut P,
    output: &mut K,
) -> Result<(), Fault>
    requires least { 1 ≤ rounds }
    requires most { rounds ≤ ROUNDS }
    ensures told { (text before : List ℕ) → (S.stream input.old).left ≡ Some text → (K.stream output.old).written ≡ Some before →
        EndsPassword rounds text before (P.desk desk.old) (P.desk desk.new) (K.stream output.new).written result }
    ensures causes { IfErr result IsPasswordFault }
    ensures reach { (text : List ℕ) → (S.stream input.old).left ≡ Some text → ReadsFront text (S.stream input.new).left }
    ensures reads { OnlyReads (result ≡ Err Fault.Read) (S.stream input.old) (S.stream input.new) }
    ensures draws { Counts (result ≡ Err Fault.Desk) (P.desk desk.old).fill_faults (P.desk desk.new).fill_faults }
    ensures drew { DrawsOnce (P.desk desk.old) (P.desk desk.new) }
    ensures writes { OnlyWrites (result ≡ Err Fault.Write) (K.stream output.old) (K.stream output.new) }
{
    match read_password(alloc, input) {
        Ok(password) => write_record(alloc, rounds, password, desk, output),
        Err(fault) => Err(fault),
    }
}

/// Writes what is kept of this password.
fn write_record<P: Desk, K: Sink>(
    alloc: Global,
    rounds: u32,
    password: Text,
    desk: &mut P,
    output: &mut K,
) -> Result<(), Fault>
    requires least { 1 ≤ rounds }
    requires most { rounds ≤ ROUNDS }
    ensures told { (text before : List ℕ) → password_of text ≡ Some password → (K.stream output.old).written ≡ Some before →
        EndsPassword rounds text before (P.desk desk.old) (P.desk desk.new) (K.stream output.new).written result }
    ensures causes { IfErr result IsRecordFault }
    ensures draws { Counts (result ≡ Err Fault.Desk) (P.desk desk.old).fill_faults (P.desk desk.new).fill_faults }
    ensures drew { DrawsOnce (P.desk desk.old) (P.desk desk.new) }
    ensures writes { OnlyWrites (result ≡ Err Fault.Write) (K.stream output.old) (K.stream output.new) }
{
    match derive_password(rounds, password, desk) {
        Ok(row) => say_record(alloc, output, &row),
        Err(_) => Err(Fault::Desk),
    }
}

/// The password that an input gives.
fn read_password<S: Source>(alloc: Global, input: &mut S) -> Result<Text, Fault>
    ensures given { IfOk result (Gives (S.stream input.old)) }
    ensures stops { IfErr result (StopsPassword (S.stream input.old)) }
    ensures reach { (text : List ℕ) → (S.stream input.old).left ≡ Some text → ReadsFront text (S.stream input.new).left }
    ensures reads { OnlyReads (result ≡ Err Fault.Read) (S.stream input.old) (S.stream input.new) }
{
    match read_front(alloc, input) {
        Ok(bytes) => password_from(alloc, bytes.as_slice()),
        Err(fault) => Err(fault),
    }
}

/// The password that these bytes give, or why there is none.
fn password_from(alloc: Global, bytes: &[u8]) -> Result<Text, Fault>
    ensures given { IfOk result (λ password. password_of bytes.now ≡ Some password) }
    ensures lacks { IfErr result (LacksPassword bytes.now) }
{
    match password_of(alloc, bytes) {
        Ok(Some(password)) => Ok(password),
        Ok(None) => Err(Fault::BadPassword),
        Err(_) => Err(Fault::Memory),
    }
}

/// Reads an input until a line feed has come, or more than a password may have, or to its end.
fn read_front<S: Source>(alloc: Global, input: &mut S) -> Result<Vec<u8>, Fault>
    ensures alike { IfOk result (λ bytes. GivesAlike (S.stream input.old) bytes.items) }
    ensures causes { IfErr result IsReadFault }
    ensures reach { (text : List ℕ) → (S.stream input.old).left ≡ Some text → ReadsFront text (S.stream input.new).left }
    ensures reads { OnlyReads (result ≡ Err Fault.Read) (S.stream input.old) (S.stream input.new) }
{
    let mut piece = [0u8; PASSWORD_BYTES];
    let mut text = Vec::new(alloc);
    'pieces: while text.len() <= PASSWORD_BYTES {
        if has_line(text.as_slice()) {
            return Ok(text);
        }
        let Ok(count) = input.read(&mut piece) else {
            return Err(Fault::Read);
        };
        if count == 0 {
            return Ok(text);
        }
        if text.extend_from_slice(&piece[..count]).is_err() {
            return Err(Fault::Memory);
        }
    }
    Ok(text)
}

fn has_line(text: &[u8]) -> bool
    ensures { result ≡ list_any (λ b. b == 10) text.now }
{
    text.contains(&b'\n')
}

/// What stands before the first line feed.
#[tactic(auto, using(crate::proofs::PasswordLemmas::line_before, crate::proofs::PasswordLemmas::line_alone))]
fn line_of(text: &[u8]) -> &[u8]
    ensures { result.now ≡ first_line_of text.entry.now }
{
    match first_line(text) {
        Some((line, _rest)) => line,
        None => text,
    }
}

/// The password that these bytes give.
fn password_of(alloc: Global, text: &[u8]) -> Result<Option<Text>, Memory>
    ensures { IfOk result (λ read. read ≡ password_of text.now) }
{
    let line = line_of(text);
    if line.is_empty() {
        return Ok(None);
    }
    if line.len() > PASSWORD_BYTES {
        return Ok(None);
    }
    Text::read(alloc, line)
}

/// Writes the text of what is kept of a password, as a line.
fn say_record<K: Sink>(alloc: Global, output: &mut K, row: &PasswordRow) -> Result<(), Fault>
    ensures told { (before : List ℕ) → (K.stream output.old).written ≡ Some before →
        Says (record_text row.now ++ 10 ∷ []) before (K.stream output.new).written result }
    ensures causes { IfErr result IsSayingFault }
    ensures writes { OnlyWrites (result ≡ Err Fault.Write) (K.stream output.old) (K.stream output.new) }
{
    let Ok(line) = record_line(alloc, row) else {
        return Err(Fault::Memory);
    };
    say(output, line.as_bytes())
}

fn record_line(alloc: Global, row: &PasswordRow) -> Result<String, Memory>
    ensures { IfOk result (λ line. string_bytes line ≡ record_text row.now ++ 10 ∷ []) }
{
    let mut line = record_text(alloc, row)?;
    line.push('\n')?;
    Ok(line)
}
