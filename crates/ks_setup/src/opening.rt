ghost use Rattle.std.specs.Prelude.{◌≡◌, ◌≤◌, ◌*◌, ℕ, List, length, IfOk};
ghost use Rattle.std.specs.List.{concat};
ghost use Rattle.ks_base.specs.declared.limits.TheConstants.{ROUNDS};
ghost use Rattle.ks_setup.specs.Forms.{IsFormOf};
ghost use Rattle.ks_setup.specs.Openings.{AnswersOpening, passwords};
ghost use Rattle.ks_setup.specs.Steps.{Checks, OpensFirst, of_draw, of_keys, of_policy, of_shape, opened_with};
ghost use Rattle.ks_setup.specs.declared.opening.OpeningFault.TheVariants.{Memory};

use crate::OpeningFile;
use crate::derive::{DrawFault, derive_users, draw_salts, passwords};
use crate::keys::{RingFault, read_ring};
use ks_base::{Key, KeyList, ListOf, Memory, ShapeFault, ShapeRefusal, Text};
use ks_outside::Desk;
use ks_policy::{Opening, PolicyFault, Rules};
use ks_written::Written;
use std::alloc::Global;

/// Why an opening file is refused. The form of the whole file is tested first, then its policy, and then its keys; the
/// random bytes of the passwords are drawn last.
#[derive(Drop)]
pub enum OpeningFault {
    /// The file is too long, no JSON text, or a field of it is missing, of a wrong type or out of range.
    Shape(ShapeFault),
    /// The policy is refused.
    Policy(PolicyFault),
    /// The entry of `keys` with this path is not the text of a key.
    BadKey(Text),
    /// The desk gave no random bytes, or a header has not as many salts as its file has plain passwords.
    Random,
    /// There was no memory.
    Memory,
}

impl From<ShapeRefusal> for OpeningFault {
    ghost from_gives = { λ refusal fault. fault ≡ of_shape refusal };

    fn from(refusal: ShapeRefusal) -> OpeningFault {
        match refusal {
            ShapeRefusal::Shape(fault) => OpeningFault::Shape(fault),
            ShapeRefusal::Memory => OpeningFault::Memory,
        }
    }
}

impl From<PolicyFault> for OpeningFault {
    ghost from_gives = { λ refusal fault. fault ≡ of_policy refusal };

    fn from(fault: PolicyFault) -> OpeningFault {
        match fault {
            PolicyFault::Memory => OpeningFault::Memory,
            fault => OpeningFault::Policy(fault),
        }
    }
}

impl From<RingFault> for OpeningFault {
    ghost from_gives = { λ refusal fault. fault ≡ of_keys refusal };

    fn from(fault: RingFault) -> OpeningFault {
        match fault {
            RingFault::BadKey(path) => OpeningFault::BadKey(path),
            RingFault::Memory => OpeningFault::Memory,
        }
    }
}

impl From<DrawFault> for OpeningFault {
    ghost from_gives = { λ refusal fault. fault ≡ of_draw refusal };

    fn from(fault: DrawFault) -> OpeningFault {
        match fault {
            DrawFault::Random => OpeningFault::Random,
            DrawFault::Memory => OpeningFault::Memory,
        }
    }
}

impl From<Memory> for OpeningFault {
    ghost from_gives = { λ _ fault. fault ≡ Memory };

    fn from(_memory: Memory) -> OpeningFault {
        OpeningFault::Memory
    }
}

/// A file of which only the passwords are still to be derived.
#[derive(Drop)]
pub(crate) struct Checked {
    pub written: Written,
    pub rules: Rules,
    pub ring: KeyList,
}

/// What the opening file opens with, where the folder of the keys holds these.
///
/// Each user with a password takes 16 random bytes of the desk, by one `fill`, in the order of the file. Nothing is
/// drawn where the file, its policy or its keys are refused.
pub fn read_opening<P: Desk>(
    alloc: Global,
    text: &[u8],
    held: &[(u32, Key)],
    desk: &mut P,
) -> Result<Opening, OpeningFault>
    ensures { AnswersOpening text.now held.now (P.desk desk.old) (P.desk desk.new) result }
{
    let file = OpeningFile::read(alloc, text)?;
    let (opening, _salts) = open(alloc, file, held, desk)?;
    Ok(opening)
}

/// What the opening file opens with, and the salts that were drawn for it.
pub(crate) fn open<P: Desk>(
    alloc: Global,
    file: OpeningFile,
    held: &[(u32, Key)],
    desk: &mut P,
) -> Result<(Opening, ListOf<[u8; 16]>), OpeningFault>
    ensures { (text : List ℕ) → IsFormOf text file → OpensFirst text held.now (P.desk desk.old) (P.desk desk.new) result }
{
    let checked = check(alloc, file, held)?;
    let salts = draw_salts(alloc, passwords(checked.written.users.as_slice()), desk)?;
    let opening = assemble(alloc, checked, salts.as_slice())?;
    Ok((opening, salts))
}

/// Tests the policy of a file and its keys.
pub(crate) fn check(
    alloc: Global,
    file: OpeningFile,
    held: &[(u32, Key)],
) -> Result<Checked, OpeningFault>
    ensures checks { (text : List ℕ) → IsFormOf text file → Checks text held.now result }
    ensures at_least_one { IfOk result (λ checked. 1 ≤ checked.written.settings.rounds) }
    ensures limited { IfOk result (λ checked. checked.written.settings.rounds ≤ ROUNDS) }
{
    let OpeningFile { written, policy } = file;
    let rules = policy?;
    let ring = read_ring(alloc, &written.keys, held)?;
    Ok(Checked {
        written,
        rules,
        ring,
    })
}

/// The opening of a file whose passwords are derived with these salts.
pub(crate) fn assemble(
    alloc: Global,
    checked: Checked,
    salts: &[[u8; 16]],
) -> Result<Opening, Memory>
    requires at_least_one { 1 ≤ checked.written.settings.rounds }
    requires limited { checked.written.settings.rounds ≤ ROUNDS }
    requires as_many { length salts.now ≡ passwords checked.written.users }
    ensures opening { IfOk result (λ opening. opening ≡ opened_with checked salts.now) }
    ensures whole { IfOk result (λ _. length (concat salts.now) ≡ 16 * passwords checked.written.users) }
{
    let Checked {
        written,
        rules,
        ring,
    } = checked;
    let users = derive_users(alloc, written.settings.rounds, written.users, salts)?;
    Ok(Opening {
        settings: written.settings,
        rules,
        ring,
        domains: written.domains,
        projects: written.projects,
        users,
        groups: written.groups,
        members: written.members,
        roles: written.roles,
        implications: written.implications,
        regions: written.regions,
        services: written.services,
        endpoints: written.endpoints,
        assignments: written.assignments,
    })
}
