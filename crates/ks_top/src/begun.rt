//! How a server begins: with the opening of its file, or with the one whose header its keeper holds.
ghost use Rattle.std.specs.Prelude.{◌≡◌, ◌≢◌, ◌⊎◌, ◌↔◌, ℕ, List, Some, None, Err, IfOk, IfErr, OnOk, OnErr, IsTrue};
ghost use Rattle.ks_keep.specs.Books.{seen_by};
ghost use Rattle.ks_keeper.specs.Keeper.{IsTidy};
ghost use Rattle.ks_machine.specs.Lawful.{IsOpeningInRange};
ghost use Rattle.ks_outside.specs.Counts.{Counts};
ghost use Rattle.ks_outside.specs.Files.{DirState, OnlyLooks};
ghost use Rattle.ks_outside.specs.Streams.{OnlyReads, StreamState};
ghost use Rattle.ks_policy.specs.Openings.{plain};
ghost use Rattle.ks_top.specs.Identities.{StaysKept, Stops};
ghost use Rattle.ks_commands.specs.Opened.{ReadsFile, StopsOpening};
ghost use Rattle.ks_top.specs.steps.Beginnings.{HasNewHeader, IsBegun, IsHeaderFault, IsStart, RefusesStart, StartsAgain, StartsAnew, StaysAnew, StopsAgain};
ghost use Rattle.ks_commands.specs.steps.Openings.{IsRead};

use ks_base::{Memory, Text};
use ks_commands::Fault;
use ks_commands::opening::{read_file, read_opening_file};
use ks_entries::{Header, headers_differ, read_header, write_header};
use ks_keeper::Keeper;
use ks_outside::{Desk, KeyDir, Source};
use ks_policy::Opening;
use ks_setup::{first_opening, opening_of, openings_are_in_range};
use ks_state::Identity;
use std::alloc::Global;
use std::snapshot::Snapshot;

/// An identity that an opening gave, before any change.
#[derive(Drop)]
pub struct Start {
    pub identity: Identity,
    /// The public URL.
    pub url: Text,
    /// The opening, of which clauses alone speak.
    pub opening: Snapshot<Opening>,
}

/// What a server begins with.
#[derive(Drop)]
pub enum Begun {
    /// The opening of its file. The keeper had no header, and has the one of this opening now.
    Anew(Start),
    /// The opening of the header that its keeper holds. The changes behind it are still to be made.
    Again(Start),
}

/// Reads the opening file to its end, and opens an identity with it where the keeper has no header, and else with what the
/// header says, if that is of the same file.
pub fn begin<F: Source, D: KeyDir, P: Desk, B: Keeper>(
    alloc: Global,
    file: &mut F,
    dir: &mut D,
    desk: &mut P,
    keeper: &mut B,
) -> Result<Begun, Fault>
    requires tidy { B.whole keeper.old → IsTidy (B.kept keeper.old) }
    ensures begins { (input output : StreamState) (place : DirState) (others : List (P × D)) → IfOk result (IsBegun (seen_by B.kept B.whole B.faults)
        (record { input = input; file = F.stream file.old; output = output; dir = D.dir dir.old; desk = P.desk desk.old; place = place; others = others; keeper = keeper.old })
        (record { input = input; file = F.stream file.new; output = output; dir = D.dir dir.new; desk = P.desk desk.new; place = place; others = others; keeper = keeper.new })) }
    ensures stops { (input output : StreamState) (place : DirState) (others : List (P × D)) → IfErr result (Stops (seen_by B.kept B.whole B.faults)
        (record { input = input; file = F.stream file.old; output = output; dir = D.dir dir.old; desk = P.desk desk.old; place = place; others = others; keeper = keeper.old })
        (record { input = input; file = F.stream file.new; output = output; dir = D.dir dir.new; desk = P.desk desk.new; place = place; others = others; keeper = keeper.new })) }
    ensures stays { (input output : StreamState) (place : DirState) (others : List (P × D)) → B.whole keeper.new → IfErr result (StaysKept (seen_by B.kept B.whole B.faults)
        (record { input = input; file = F.stream file.old; output = output; dir = D.dir dir.old; desk = P.desk desk.old; place = place; others = others; keeper = keeper.old })
        (record { input = input; file = F.stream file.new; output = output; dir = D.dir dir.new; desk = P.desk desk.new; place = place; others = others; keeper = keeper.new })) }
    ensures reach { (told : List ℕ) → (F.stream file.old).left ≡ Some told → ReadsFile told (F.stream file.new).left }
    ensures reads { OnlyReads (result ≡ Err Fault.Read) (F.stream file.old) (F.stream file.new) }
    ensures looks { OnlyLooks (result ≡ Err Fault.Folder) (D.dir dir.old) (D.dir dir.new) }
    ensures faults { Counts (result ≡ Err (Fault.Keeper None)) (B.faults keeper.old) (B.faults keeper.new) }
    ensures since { B.whole keeper.new → B.whole keeper.old }
{
    let text = read_file(alloc, file)?;
    match keeper.header() {
        Ok(None) => {
            let start = start_anew(alloc, text.as_slice(), dir, desk, keeper)?;
            Ok(Begun::Anew(start))
        }
        Ok(Some(header)) => {
            let start = start_again(alloc, text.as_slice(), header.as_slice())?;
            Ok(Begun::Again(start))
        }
        Err(fault) => Err(Fault::of_keeper(fault)),
    }
}

/// Opens an identity with the file, and gives the keeper the header of that.
fn start_anew<D: KeyDir, P: Desk, B: Keeper>(
    alloc: Global,
    text: &[u8],
    dir: &mut D,
    desk: &mut P,
    keeper: &mut B,
) -> Result<Start, Fault>
    ensures starts { IfOk result (StartsAnew (seen_by B.kept B.whole B.faults) text.now (D.dir dir.old) (P.desk desk.old) (P.desk desk.new) keeper.old keeper.new) }
    ensures stops { IfErr result (λ f. (file : StreamState) → IsRead file text.now → StopsOpening file (D.dir dir.old) (P.desk desk.old) (P.desk desk.new) f) }
    ensures stays { B.whole keeper.new → IfErr result (StaysAnew (seen_by B.kept B.whole B.faults) text.now (D.dir dir.old) (P.desk desk.old) (P.desk desk.new) keeper.old keeper.new) }
    ensures unread { IfErr result (λ f. f ≢ Fault.Read) }
    ensures looks { OnlyLooks (result ≡ Err Fault.Folder) (D.dir dir.old) (D.dir dir.new) }
    ensures faults { Counts (result ≡ Err (Fault.Keeper None)) (B.faults keeper.old) (B.faults keeper.new) }
    ensures since { B.whole keeper.new → B.whole keeper.old }
{
    let (file, held) = read_opening_file(alloc, text, dir)?;
    let (opening, header) = match first_opening(alloc, text, file, held.as_slice(), desk) {
        Ok(made) => made,
        Err(fault) => return Err(Fault::of_opening(fault)),
    };
    openings_are_in_range();
    let start = start_with(alloc, opening)?;
    put_header(alloc, &header, keeper)?;
    Ok(start)
}

/// Gives the keeper a header.
fn put_header<B: Keeper>(alloc: Global, header: &Header, keeper: &mut B) -> Result<(), Fault>
    ensures ok { B.whole keeper.new → OnOk result (HasNewHeader (B.kept keeper.old) (B.kept keeper.new) header.now) }
    ensures err { B.whole keeper.new → OnErr result ((B.kept keeper.new ≡ B.kept keeper.old) ⊎ HasNewHeader (B.kept keeper.old) (B.kept keeper.new) header.now) }
    ensures causes { IfErr result IsHeaderFault }
    ensures faults { Counts (result ≡ Err (Fault.Keeper None)) (B.faults keeper.old) (B.faults keeper.new) }
    ensures since { B.whole keeper.new → B.whole keeper.old }
{
    let Ok(bytes) = write_header(alloc, header) else {
        return Err(Fault::Memory);
    };
    match keeper.set_header(bytes.as_slice()) {
        Ok(()) => Ok(()),
        Err(fault) => Err(Fault::of_keeper(fault)),
    }
}

/// Opens an identity with what the bytes of a header say, where they are of a file of this text.
fn start_again(alloc: Global, text: &[u8], bytes: &[u8]) -> Result<Start, Fault>
    ensures starts { IfOk result (StartsAgain text.now bytes.now) }
    ensures stops { IfErr result (StopsAgain text.now bytes.now) }
{
    let header = match read_header(alloc, bytes) {
        Ok(Some(header)) => header,
        Ok(None) => return Err(Fault::OtherOpening),
        Err(Memory) => return Err(Fault::Memory),
    };
    headers_differ();
    if !is_of(&header, text) {
        return Err(Fault::OtherOpening);
    }
    let opening = match opening_of(alloc, &header) {
        Ok(opening) => opening,
        Err(fault) => return Err(Fault::of_header(fault)),
    };
    openings_are_in_range();
    start_with(alloc, opening)
}

/// Whether the header is of a file of this text.
fn is_of(header: &Header, text: &[u8]) -> bool
    ensures { IsTrue result ↔ (header.now.opening ≡ text.now) }
{
    header.opening.as_slice() == text
}

/// Opens an identity with an opening.
fn start_with(alloc: Global, opening: Opening) -> Result<Start, Fault>
    requires range { IsOpeningInRange (plain opening) }
    ensures starts { IfOk result (λ start. IsStart start × (plain start.opening.value ≡ plain opening)) }
    ensures stops { IfErr result (RefusesStart (plain opening)) }
{
    let Ok(url) = opening.settings.url.copy() else {
        return Err(Fault::Memory);
    };
    let kept = Snapshot::of(&opening);
    match Identity::open(alloc, opening) {
        Ok(identity) => Ok(Start {
            identity,
            url,
            opening: kept,
        }),
        Err(why) => Err(Fault::of_state(why)),
    }
}
