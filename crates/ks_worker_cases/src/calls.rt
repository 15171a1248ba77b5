//! The calls that workers make, all at one reading of the clock.
ghost use Rattle.std.specs.Prelude.{◌≡◌, IfOk, false};
ghost use Rattle.ks_machine.specs.Fit.{AreFields, Fit, IsDrawFor, IsFolderFor, IsMade};
ghost use Rattle.ks_machine.specs.Ranges.{IsMfaRule, IsPassword};
ghost use Rattle.ks_machine.specs.Actions.{requirements};

use anyhow::{Result, bail, ensure};
use ks_base::limits::PASSWORD_BYTES;
use ks_base::{Boxed, Bytes, Drawn, Id, Text};
use ks_machine::{
    Call, Command, FolderRead, LoginBody, Made, MfaIn, ProjectNamed, Proof, ScopeIn, UserNamed,
};
use std::alloc::Global;

/// The clock's reading, in seconds since 1970: 1985-10-26T08:20:00Z.
pub const READING: u64 = 499_162_800;

/// The administrator of the opening.
pub const ANN: &str = "00112233445566778899aabbccddeeff";

/// A member of its project.
pub const BOB: &str = "bob";

const DEMO: &str = "a0000000000000000000000000000001";

/// The id of this text.
pub fn id(text: &str) -> Result<Id> {
    match Id::read(text.as_bytes()) {
        Ok(id) => Ok(id),
        Err(_) => bail!("no id"),
    }
}

fn password(alloc: Global, text: &str) -> Result<Text>
    ensures { IfOk result IsPassword }
{
    ensure!(
        !text.is_empty() && text.len() <= PASSWORD_BYTES,
        "no password"
    );
    Ok(Text::of(alloc, text)?)
}

/// A call that reads no folder.
fn asked(command: Command, caller: Option<Text>, subject: Option<Text>, draw: Drawn) -> Call
    requires fields { AreFields command }
    requires draw { IsDrawFor (requirements command).draws draw }
    requires folder { IsFolderFor (requirements command).loads FolderRead.Unused }
    ensures { Fit result }
{
    Call {
        command,
        caller,
        subject,
        reading: READING,
        draw,
        folder: FolderRead::Unused,
    }
}

/// The user logs in to the project. Each byte drawn is this one.
#[tactic(auto, unfolding(ks_machine::specs::Actions::requirements))]
pub fn log_in(alloc: Global, user: &str, secret: &str, byte: u8) -> Result<Call>
    ensures { IfOk result Fit }
{
    let body = LoginBody {
        proof: Proof::Password(UserNamed::Id(id(user)?), password(alloc, secret)?),
        scope: ScopeIn::Project(ProjectNamed::Id(id(DEMO)?)),
    };
    let draw = Drawn::Bytes([byte; 64]);
    Ok(asked(Command::Login(Boxed::new(alloc, body)?), None, None, draw))
}

/// The owner of a token asks for all that is told of another one.
#[tactic(auto, unfolding(ks_machine::specs::Actions::requirements))]
pub fn validate(caller: &Text, subject: &Text) -> Result<Call>
    ensures { IfOk result Fit }
{
    let caller = caller.copy()?;
    let subject = subject.copy()?;
    Ok(asked(
        Command::Validate(false),
        Some(caller),
        Some(subject),
        Drawn::Unused,
    ))
}

/// The owner of a token has the keys rotated. Each byte drawn is this one.
#[tactic(auto, unfolding(ks_machine::specs::Actions::requirements))]
pub fn rotate(caller: &Text, byte: u8) -> Result<Call>
    ensures { IfOk result Fit }
{
    let draw = Drawn::Bytes([byte; 64]);
    Ok(asked(Command::RotateKeys, Some(caller.copy()?), None, draw))
}

/// A rule of the methods of a login: a password and a code.
const BOTH_METHODS: u8 = 5;

/// What is changed of a user who has to log in by these methods from then on.
fn rule_of_methods(alloc: Global, methods: u8) -> Result<Made>
    requires { IsMfaRule methods }
    ensures { IfOk result (IsMade false) }
{
    let rules = Bytes::of(alloc, &[methods])?;
    Ok(Made::User {
        id: None,
        name: None,
        domain: None,
        password: None,
        enabled: None,
        factors: Some(MfaIn {
            enabled: true,
            rules,
        }),
    })
}

/// The owner of a token has a user log in by a password and a code. Each byte drawn is this one.
#[tactic(auto, unfolding(ks_machine::specs::Actions::requirements))]
pub fn ask_for_code(alloc: Global, caller: &Text, user: &str, byte: u8) -> Result<Call>
    ensures { IfOk result Fit }
{
    let user = id(user)?;
    let made = rule_of_methods(alloc, BOTH_METHODS)?;
    let caller = caller.copy()?;
    let draw = Drawn::Bytes([byte; 64]);
    Ok(asked(
        Command::Update(user, Boxed::new(alloc, made)?),
        Some(caller),
        None,
        draw,
    ))
}

/// The user takes a new password. Each byte drawn is this one.
#[tactic(auto, unfolding(ks_machine::specs::Actions::requirements))]
pub fn change_password(
    alloc: Global,
    user: &str,
    original: &str,
    new: &str,
    byte: u8,
) -> Result<Call>
    ensures { IfOk result Fit }
{
    let user = id(user)?;
    let original = password(alloc, original)?;
    let new = password(alloc, new)?;
    let draw = Drawn::Bytes([byte; 64]);
    Ok(asked(
        Command::ChangePassword(user, original, new),
        None,
        None,
        draw,
    ))
}
