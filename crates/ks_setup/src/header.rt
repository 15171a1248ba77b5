//! The header of a journal: what a file opened with, once more.
ghost use Rattle.std.specs.Prelude.{◌≡◌, IfOk};
ghost use Rattle.ks_policy.specs.Openings.{plain};
ghost use Rattle.ks_setup.specs.Forms.{IsFormOf};
ghost use Rattle.ks_setup.specs.Headers.{AnswersHeader, IsHeaderOf, first_of};
ghost use Rattle.ks_setup.specs.Openings.{AnswersOpening};

use crate::OpeningFile;
use crate::derive::passwords;
use crate::opening::{OpeningFault, assemble, check, open};
use ks_base::{Bytes, Key, ListOf, Memory};
use ks_entries::Header;
use ks_outside::Desk;
use ks_policy::Opening;
use std::alloc::Global;

/// What the file of this text opens with, as `read_opening` reads it, and the header that gives the same opening again.
pub fn first_opening<P: Desk>(
    alloc: Global,
    text: &[u8],
    file: OpeningFile,
    held: &[(u32, Key)],
    desk: &mut P,
) -> Result<(Opening, Header), OpeningFault>
    requires { IsFormOf text.now file }
    ensures opening { AnswersOpening text.now held.now (P.desk desk.old) (P.desk desk.new) (first_of result) }
    ensures header { IfOk result (λ made. IsHeaderOf text.now held.now (P.desk desk.old) (P.desk desk.new) (plain made.0) made.1) }
{
    let (opening, salts) = open(alloc, file, held, desk)?;
    let header = header_of(alloc, text, held, salts)?;
    Ok((opening, header))
}

fn header_of(
    alloc: Global,
    text: &[u8],
    held: &[(u32, Key)],
    salts: ListOf<[u8; 16]>,
) -> Result<Header, Memory>
    ensures { IfOk result (λ header. header ≡ record { opening = text.now; keys = held.now; salts = salts }) }
{
    Ok(Header {
        opening: Bytes::of(alloc, text)?,
        keys: ListOf::from_vec(Vec::from_slice(alloc, held)?),
        salts,
    })
}

/// What the file of a header opens with, its passwords derived with the header's salts, the first for the first that is
/// plain. A header that has not as many salts is refused as `Random`.
pub fn opening_of(alloc: Global, header: &Header) -> Result<Opening, OpeningFault>
    ensures { AnswersHeader header.now result }
{
    let file = OpeningFile::read(alloc, header.opening.as_slice())?;
    let checked = check(alloc, file, header.keys.as_slice())?;
    let salts = header.salts.as_slice();
    if salts.len() != passwords(checked.written.users.as_slice()) {
        return Err(OpeningFault::Random);
    }
    let opening = assemble(alloc, checked, salts)?;
    Ok(opening)
}
